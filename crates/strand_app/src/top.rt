ghost use Rattle.std.specs.Prelude.{◌≡◌, ◌≢◌, IfOk, OnErr};
ghost use Rattle.std.specs.Prelude.{None, Some};
ghost use Rattle.strand_app.specs.Afterwards.{Afterwards};
ghost use Rattle.strand_app.specs.Causes.{FileCause, ModuleCause, RefusalCause, SinkCause};
ghost use Rattle.strand_app.specs.Causes.{AnswersRefusal, IsPutWhole, IsRefused, MemoryCause};
ghost use Rattle.strand_app.specs.CommandView.{command_asked, asked_rule, view};
ghost use Rattle.strand_app.specs.Completeness.{NothingIsRefused, IsQuiet, IsWholeAnswer};
ghost use Rattle.strand_app.specs.Ends.{Ends};
ghost use Rattle.strand_app.specs.RuleOf.{rule_of};
ghost use Rattle.strand_app.specs.Runs.{Comes, Runs};
ghost use Rattle.strand_app.specs.Tells.{Holds, IsTold, Refutes, Tells};
ghost use Rattle.strand_app.specs.World.{outside, world};
ghost use Rattle.strand_modules.specs.Bank.{Quiet};
ghost use Rattle.strand_modules.specs.Seen.{bank_seen};
ghost use Rattle.strand_report.specs.FaultLines.{words_fault};
ghost use Rattle.strand_report.specs.declared.refusal.Refusal.{Refusal};

use crate::command::{Command, read_command};
use crate::commands::again::tell_generations;
use crate::commands::asm::asm_text;
use crate::commands::check::check_claim;
use crate::commands::gen_image::image_generated;
use crate::commands::gen_run::judge_generated;
use crate::commands::gen_schedule::schedule_generated;
use crate::commands::judge::judge_crash;
use crate::commands::list::list_image;
use crate::commands::refute::refute_crash;
use crate::commands::run::report_run;
use crate::commands::trace::trace_run;
use crate::commands::upgrade::upgrade_image;
use crate::status::{Made, Status};
use std::alloc::Global;
use strand_base::{Files, OutOfMemory, Sink, put_all};
use strand_modules::ModuleBank;

// Puts a text.
fn put_text<K: Sink>(out: &mut K, status: Status, text: &[u8]) -> Status
    ensures { Ends status text.now (K.seen out.old) (K.seen out.new) result }
{
    match put_all(out, text) {
        Ok(()) => status,
        Err(_) => Status::SinkFault,
    }
}

// Puts what was made.
fn finish<K: Sink>(out: &mut K, made: Result<Made, OutOfMemory>) -> Status
    ensures made { IfOk made (λ made.
        Ends made.status made.text.items (K.seen out.old) (K.seen out.new) result) }
    ensures memory { OnErr made ((result ≡ Status.Memory) × (K.seen out.new ≡ K.seen out.old)) }
{
    match made {
        Ok(made) => put_text(out, made.status, &made.text),
        Err(OutOfMemory) => Status::Memory,
    }
}

/// Does all that the program does: reads the words as a command, opens its files, runs it on the
/// bank, and puts one text (docs/program.md).
pub fn strand_main<F: Files, K: Sink>(
    alloc: Global,
    words: &[String],
    files: &mut F,
    out: &mut K,
    bank: &mut ModuleBank,
) -> Status
    // The whole call: what is put, how it ends, and what the bank holds.
    ensures runs { Runs (asked_rule words.now (bank_seen holds bank.old))
        (outside (F.seen files.old) (bank_seen holds bank.old) (K.seen out.old))
        (outside (F.seen files.new) (bank_seen holds bank.new) (K.seen out.new)) result }

    // At Ok, No and ModuleFault the text is what the rule puts: of the visible run, its graph, its judge.
    ensures visible { IsTold result → Tells (asked_rule words.now (bank_seen holds bank.old))
        (outside (F.seen files.old) (bank_seen holds bank.old) (K.seen out.old))
        (outside (F.seen files.new) (bank_seen holds bank.new) (K.seen out.new)) result }

    // However the call ends, what its steps left in the bank is an image that persist order allows;
    // a refused fill leaves a part of the first words, and a call that ran nothing what was there.
    ensures crash { Holds (asked_rule words.now (bank_seen holds bank.old))
        (outside (F.seen files.old) (bank_seen holds bank.old) (K.seen out.old))
        (outside (F.seen files.new) (bank_seen holds bank.new) (K.seen out.new)) result }

    // What the bank holds, by the status: what it held at entry, a part of the fill, or the image after some steps.
    ensures afterwards { Afterwards (asked_rule words.now (bank_seen holds bank.old))
        (outside (F.seen files.old) (bank_seen holds bank.old) (K.seen out.old))
        (outside (F.seen files.new) (bank_seen holds bank.new) (K.seen out.new)) result }

    // Where nothing is refused and no count rises, memory ran out, or the whole text was put: at No exactly as the rule
    // says.
    ensures completeness { (command_asked words.now ≡ None → ⊥)
        → IsQuiet (outside (F.seen files.old) (bank_seen holds bank.old) (K.seen out.old))
        (outside (F.seen files.new) (bank_seen holds bank.new) (K.seen out.new))
        → NothingIsRefused (asked_rule words.now (bank_seen holds bank.old))
        (outside (F.seen files.old) (bank_seen holds bank.old) (K.seen out.old))
        → IsWholeAnswer (asked_rule words.now (bank_seen holds bank.old))
        (outside (F.seen files.old) (bank_seen holds bank.old) (K.seen out.old))
        (outside (F.seen files.new) (bank_seen holds bank.new) (K.seen out.new)) result }

    // Only words that are no command are answered so, and they always are.
    ensures words { result ≡ Status.Words → command_asked words.now ≡ None }
    ensures no_command { command_asked words.now ≡ None
        → Ends Status.Words words_fault (K.seen out.old) (K.seen out.new) result }

    // No comes only where `judge` or `gen` has no judged set, where `refute` has one, or where `check` rejects: and
    // word and rank, the least set, or the line's number show it.
    ensures no { result ≡ Status.No → Refutes (asked_rule words.now (bank_seen holds bank.old))
        (outside (F.seen files.old) (bank_seen holds bank.old) (K.seen out.old))
        (outside (F.seen files.new) (bank_seen holds bank.new) (K.seen out.new)) }

    // What was given is refused where it must be, and only there: with its cause and its place.
    ensures refused { (refused : Refusal) → IsRefused (asked_rule words.now (bank_seen holds bank.old))
        (outside (F.seen files.old) (bank_seen holds bank.old) (K.seen out.old)) refused
        → AnswersRefusal
        (outside (F.seen files.old) (bank_seen holds bank.old) (K.seen out.old))
        (outside (F.seen files.new) (bank_seen holds bank.new) (K.seen out.new)) refused result }
    ensures input { result ≡ Status.Input → RefusalCause (asked_rule words.now (bank_seen holds bank.old))
        (outside (F.seen files.old) (bank_seen holds bank.old) (K.seen out.old))
        (outside (F.seen files.new) (bank_seen holds bank.new) (K.seen out.new)) result }
    ensures limit { result ≡ Status.Limit → RefusalCause (asked_rule words.now (bank_seen holds bank.old))
        (outside (F.seen files.old) (bank_seen holds bank.old) (K.seen out.old))
        (outside (F.seen files.new) (bank_seen holds bank.new) (K.seen out.new)) result }
    ensures stop_past { result ≡ Status.StopPast → RefusalCause (asked_rule words.now (bank_seen holds bank.old))
        (outside (F.seen files.old) (bank_seen holds bank.old) (K.seen out.old))
        (outside (F.seen files.new) (bank_seen holds bank.new) (K.seen out.new)) result }

    // Each fault outside has its cause.
    ensures file_fault { result ≡ Status.FileFault → FileCause (asked_rule words.now (bank_seen holds bank.old))
        (outside (F.seen files.old) (bank_seen holds bank.old) (K.seen out.old))
        (outside (F.seen files.new) (bank_seen holds bank.new) (K.seen out.new)) }
    ensures module_fault { result ≡ Status.ModuleFault → ModuleCause (asked_rule words.now (bank_seen holds bank.old))
        (outside (F.seen files.old) (bank_seen holds bank.old) (K.seen out.old))
        (outside (F.seen files.new) (bank_seen holds bank.new) (K.seen out.new)) }
    ensures sink_fault { result ≡ Status.SinkFault → SinkCause (asked_rule words.now (bank_seen holds bank.old))
        (outside (F.seen files.old) (bank_seen holds bank.old) (K.seen out.old))
        (outside (F.seen files.new) (bank_seen holds bank.new) (K.seen out.new)) result }
    ensures memory { result ≡ Status.Memory → MemoryCause (command_asked words.now)
        (outside (F.seen files.old) (bank_seen holds bank.old) (K.seen out.old))
        (outside (F.seen files.new) (bank_seen holds bank.new) (K.seen out.new)) }

    // No fault passes under another status: the sink's never, the others' where the text was put whole.
    ensures no_sink_fault { result ≢ Status.SinkFault
        → (K.seen out.new).faults ≡ (K.seen out.old).faults }
    ensures no_file_fault { IsPutWhole result → result ≢ Status.FileFault
        → (F.seen files.new).faults ≡ (F.seen files.old).faults }
    ensures no_module_fault { IsPutWhole result → result ≢ Status.ModuleFault
        → Quiet (bank_seen holds bank.old) (bank_seen holds bank.new) }
{
    run_command(alloc, words, files, out, bank)
}

// What a command makes.
fn make<F: Files>(
    alloc: Global,
    command: Command<'_>,
    files: &mut F,
    bank: &mut ModuleBank,
) -> Result<Made, OutOfMemory>
    ensures { Comes (rule_of (Some (view command.entry)) (bank_seen holds bank.old))
        (world (F.seen files.old) (bank_seen holds bank.old)) (world (F.seen files.new) (bank_seen holds bank.new)) result }
{
    match command {
        Command::Asm { text } => asm_text(alloc, text, files),
        Command::List { image } => list_image(alloc, image, files),
        Command::Upgrade { image } => upgrade_image(alloc, image, files),
        Command::Run { words } => report_run(alloc, words, files, bank),
        Command::Judge { words, crash } => judge_crash(alloc, words, crash, files, bank),
        Command::Refute { words, crash } => refute_crash(alloc, words, crash, files, bank),
        Command::Check {
            words,
            crash,
            certificate,
        } => check_claim(alloc, words, crash, certificate, files, bank),
        Command::Trace { words } => trace_run(alloc, words, files, bank),
        Command::Again { words } => tell_generations(alloc, words, files, bank),
        Command::Gen { seed, size } => judge_generated(alloc, seed, size, bank),
        Command::GenImage { seed, size } => image_generated(alloc, seed, size),
        Command::GenSchedule { seed, size } => schedule_generated(alloc, seed, size),
    }
}

// The whole call, by its command.
fn run_command<F: Files, K: Sink>(
    alloc: Global,
    words: &[String],
    files: &mut F,
    out: &mut K,
    bank: &mut ModuleBank,
) -> Status
    ensures { Runs (asked_rule words.now (bank_seen holds bank.old))
        (outside (F.seen files.old) (bank_seen holds bank.old) (K.seen out.old))
        (outside (F.seen files.new) (bank_seen holds bank.new) (K.seen out.new)) result }
{
    match read_command(words) {
        None => put_text(out, Status::Words, b"fault words\n"),
        Some(command) => {
            let made = make(alloc, command, files, bank);
            finish(out, made)
        }
    }
}

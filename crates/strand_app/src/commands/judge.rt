ghost use Rattle.std.specs.Prelude.{◌≡◌, ◌++◌, ◌∷◌, [], IfOk, length};
ghost use Rattle.strand_app.specs.CommandView.{judge_rule_in};
ghost use Rattle.strand_app.specs.Commands.Judge.{PutsVerdict, judge_reads, verdict_status};
ghost use Rattle.strand_app.specs.Judging.{AreAsked, TellsVerdict, question_of};
ghost use Rattle.strand_app.specs.Opening.{OpensTo, inputs_of, names_of};
ghost use Rattle.strand_app.specs.Running.{MakesOnBank};
ghost use Rattle.strand_app.specs.Runs.{Comes};
ghost use Rattle.strand_app.specs.World.{world};
ghost use Rattle.strand_modules.specs.Seen.{bank_seen};

use crate::command::RunWords;
use crate::contents::fetch_crash;
use crate::fetching::OpenFault;
use crate::opening::{Setup, cut_off, open_run_files};
use crate::refusing::refuse;
use crate::running::{Ran, run_on_bank};
use crate::status::{Made, Status};
use std::alloc::Global;
use strand_again::Ran as Run;
use strand_base::{Files, OutOfMemory};
use strand_inputs::Words;
use strand_judge::Verdict;
use strand_modules::ModuleBank;
use strand_report::write_verdict;
use strand_run::verdict;

/// What is run, and the words of a crash image.
#[derive(Drop)]
pub struct Question {
    pub setup: Setup,
    pub crash: Words,
}

/// Opens the files of a question, and cuts the steps off.
pub fn open_question<F: Files>(
    alloc: Global,
    words: RunWords<'_>,
    crash: &str,
    size: u64,
    files: &mut F,
) -> Result<Question, OpenFault>
    ensures opens { OpensTo (names_of words.entry ++ crash.now ∷ [])
        (judge_reads size words.entry.stop) question_of
        (F.seen files.old) (F.seen files.new) result }
    ensures ready { IfOk result (AreAsked size) }
{
    let all = open_run_files(alloc, words, files)?;
    let crash = fetch_crash(alloc, &all.image, crash, files)?;
    let setup = cut_off(all, words.stop, size)?;
    Ok(Question { setup, crash })
}

/// How a call ends that puts this verdict.
pub fn status_of(judged: &Verdict) -> Status
    ensures { result ≡ verdict_status judged.now }
{
    match judged {
        Verdict::Yes(_) => Status::Ok,
        Verdict::No { .. } => Status::No,
    }
}

fn verdict_of(alloc: Global, question: &Question, run: &Run) -> Result<Made, OutOfMemory>
    requires persistent { run.now.machine.machine.program.sizes.persistent
        ≡ length question.now.setup.files.image.persistent }
    requires crash { length question.now.crash ≡ length question.now.setup.files.image.persistent }
    ensures { IfOk result (TellsVerdict question.now run.now) }
{
    let files = &question.setup.files;
    let initial = files.image.persistent();
    let judged = verdict(
        alloc,
        run,
        question.setup.mode(),
        initial,
        question.crash.as_slice(),
    )?;
    let mut text = Vec::new(alloc);
    write_verdict(&judged, &mut text)?;
    Ok(Made {
        status: status_of(&judged),
        text,
    })
}

fn verdict_on_bank(
    alloc: Global,
    question: &Question,
    bank: &mut ModuleBank,
) -> Result<Made, OutOfMemory>
    requires { AreAsked (bank_seen holds bank.old).size question.now }
    ensures { MakesOnBank (inputs_of question.now.setup) (bank_seen holds bank.old) (bank_seen holds bank.new)
        (PutsVerdict (question_of question.now)) result }
{
    match run_on_bank(alloc, &question.setup, bank)? {
        Ran::Whole { run } => verdict_of(alloc, question, &run),
        Ran::Refused { made } => Ok(made),
    }
}

/// `judge MACHINE IMAGE SCHEDULE STOP CRASH`: the judge's verdict on a crash image, by the trace of a run.
pub fn judge_crash<F: Files>(
    alloc: Global,
    words: RunWords<'_>,
    crash: &str,
    files: &mut F,
    bank: &mut ModuleBank,
) -> Result<Made, OutOfMemory>
    ensures { Comes (judge_rule_in words.entry crash.now (bank_seen holds bank.old))
        (world (F.seen files.old) (bank_seen holds bank.old)) (world (F.seen files.new) (bank_seen holds bank.new)) result }
{
    match open_question(alloc, words, crash, bank.words(), files) {
        Ok(question) => verdict_on_bank(alloc, &question, bank),
        Err(fault) => refuse(alloc, fault),
    }
}

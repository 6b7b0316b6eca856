ghost use Rattle.std.specs.Prelude.{◌≡◌, ◌≤◌, IfOk, length};
ghost use Rattle.strand_base.specs.declared.limits.TheConstants.{MOST_STEPS};
ghost use Rattle.strand_app.specs.CommandView.{refute_rule_in};
ghost use Rattle.strand_app.specs.Commands.Refute.{PutsRefutation};
ghost use Rattle.strand_app.specs.Judging.{AreAsked, question_of};
ghost use Rattle.strand_app.specs.Opening.{inputs_of};
ghost use Rattle.strand_app.specs.Refuting.{TellsRefutation};
ghost use Rattle.strand_app.specs.Running.{MakesOnBank};
ghost use Rattle.strand_app.specs.Runs.{Comes};
ghost use Rattle.strand_app.specs.World.{world};
ghost use Rattle.strand_modules.specs.Seen.{bank_seen};
ghost use Rattle.strand_run.specs.Outcome.{view_of};

use crate::command::RunWords;
use crate::commands::judge::{Question, open_question};
use crate::refusing::refuse;
use crate::running::{Ran, run_on_bank};
use crate::status::{Made, Status};
use std::alloc::Global;
use strand_again::Ran as Run;
use strand_base::{Files, OutOfMemory};
use strand_judge::Verdict;
use strand_modules::ModuleBank;
use strand_refute::{Refutation, write_certificate};
use strand_report::write_verdict;
use strand_run::refutation;

fn refutation_of(alloc: Global, question: &Question, run: &Run) -> Result<Made, OutOfMemory>
    requires persistent { run.now.machine.machine.program.sizes.persistent
        ≡ length question.now.setup.files.image.persistent }
    requires crash { length question.now.crash ≡ length question.now.setup.files.image.persistent }
    requires few { length (view_of run.now).trace ≤ MOST_STEPS }
    ensures { IfOk result (TellsRefutation question.now run.now) }
{
    let initial = question.setup.files.image.persistent();
    let crash = question.crash.as_slice();
    let mut text = Vec::new(alloc);
    match refutation(alloc, run, question.setup.mode(), initial, crash)? {
        Refutation::Refuted(certificate) => {
            write_certificate(&certificate, &mut text)?;
            let status = Status::Ok;
            Ok(Made { status, text })
        }
        Refutation::Possible(list) => {
            write_verdict(&Verdict::Yes(list), &mut text)?;
            let status = Status::No;
            Ok(Made { status, text })
        }
    }
}

fn refutation_on_bank(
    alloc: Global,
    question: &Question,
    bank: &mut ModuleBank,
) -> Result<Made, OutOfMemory>
    requires { AreAsked (bank_seen holds bank.old).size question.now }
    ensures { MakesOnBank (inputs_of question.now.setup) (bank_seen holds bank.old) (bank_seen holds bank.new)
        (PutsRefutation (question_of question.now)) result }
{
    match run_on_bank(alloc, &question.setup, bank)? {
        Ran::Whole { run } => refutation_of(alloc, question, &run),
        Ran::Refused { made } => Ok(made),
    }
}

/// `refute MACHINE IMAGE SCHEDULE STOP CRASH`: a certificate that a crash image may not have come from a run, or the
/// least set that gives it, by the trace of the run.
pub fn refute_crash<F: Files>(
    alloc: Global,
    words: RunWords<'_>,
    crash: &str,
    files: &mut F,
    bank: &mut ModuleBank,
) -> Result<Made, OutOfMemory>
    ensures { Comes (refute_rule_in words.entry crash.now (bank_seen holds bank.old))
        (world (F.seen files.old) (bank_seen holds bank.old)) (world (F.seen files.new) (bank_seen holds bank.new)) result }
{
    match open_question(alloc, words, crash, bank.words(), files) {
        Ok(question) => refutation_on_bank(alloc, &question, bank),
        Err(fault) => refuse(alloc, fault),
    }
}

ghost use Rattle.strand_app.specs.CommandView.{run_rule_in};
ghost use Rattle.strand_app.specs.Commands.Run.{PutsReport};
ghost use Rattle.strand_app.specs.Opening.{IsReady, inputs_of};
ghost use Rattle.strand_app.specs.Running.{MakesOnBank};
ghost use Rattle.strand_app.specs.Runs.{Comes};
ghost use Rattle.strand_app.specs.World.{world};
ghost use Rattle.strand_modules.specs.Seen.{bank_seen};

use crate::command::RunWords;
use crate::opening::{Setup, open_run};
use crate::refusing::refuse;
use crate::running::{Ran, run_on_bank};
use crate::status::{Made, Status};
use std::alloc::Global;
use strand_base::{Files, OutOfMemory};
use strand_modules::ModuleBank;
use strand_run::report;

fn report_on_bank(alloc: Global, setup: &Setup, bank: &mut ModuleBank) -> Result<Made, OutOfMemory>
    requires { IsReady (bank_seen holds bank.old).size setup.now }
    ensures { MakesOnBank (inputs_of setup.now) (bank_seen holds bank.old) (bank_seen holds bank.new)
        (PutsReport (inputs_of setup.now) (bank_seen holds bank.old)) result }
{
    match run_on_bank(alloc, setup, bank)? {
        Ran::Whole { run } => Ok(Made {
            status: Status::Ok,
            text: report(alloc, &run, setup.mode())?,
        }),
        Ran::Refused { made } => Ok(made),
    }
}

/// `run MACHINE IMAGE SCHEDULE STOP`: the report of a run.
pub fn report_run<F: Files>(
    alloc: Global,
    words: RunWords<'_>,
    files: &mut F,
    bank: &mut ModuleBank,
) -> Result<Made, OutOfMemory>
    ensures { Comes (run_rule_in words.entry (bank_seen holds bank.old))
        (world (F.seen files.old) (bank_seen holds bank.old)) (world (F.seen files.new) (bank_seen holds bank.new)) result }
{
    match open_run(alloc, words, bank.words(), files) {
        Ok(setup) => report_on_bank(alloc, &setup, bank),
        Err(fault) => refuse(alloc, fault),
    }
}

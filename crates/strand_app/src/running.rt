ghost use Rattle.std.specs.Prelude.{IfOk, OnErr};
ghost use Rattle.strand_app.specs.Opening.{IsReady, inputs_of};
ghost use Rattle.strand_app.specs.Running.{Answers, RunsOnBank};
ghost use Rattle.strand_modules.specs.Bank.{Keeps};
ghost use Rattle.strand_modules.specs.Seen.{bank_seen};
ghost use Rattle.strand_report.specs.FaultLines.{module_fault_line};
ghost use Rattle.strand_run.specs.Outcome.{MayLeave, RunsTo};

use crate::opening::Setup;
use crate::status::{Made, Status};
use std::alloc::Global;
use strand_again::Ran as Run;
use strand_base::OutOfMemory;
use strand_modules::ModuleBank;
use strand_report::{ModuleFault, ModulePhase, write_module_fault};
use strand_run::{RunEnd, report, run_image};

/// What came of a run on the bank.
#[derive(Drop)]
pub enum Ran {
    /// No module refused.
    Whole { run: Run },
    /// A module refused, and this is the answer.
    Refused { made: Made },
}

// The answer where a module refused the fill or the read.
fn refused(alloc: Global, module: u32, phase: ModulePhase) -> Result<Ran, OutOfMemory>
    ensures { IfOk result (Answers
        (module_fault_line (record { «module» = «module»; phase = phase }))) }
{
    let mut text = Vec::new(alloc);
    write_module_fault(ModuleFault { module, phase }, &mut text)?;
    Ok(Ran::Refused {
        made: Made {
            status: Status::ModuleFault,
            text,
        },
    })
}

/// Fills the bank, makes the steps and reads the bank.
pub fn run_setup(alloc: Global, setup: &Setup, bank: &mut ModuleBank) -> Result<RunEnd, OutOfMemory>
    requires { IsReady (bank_seen holds bank.old).size setup.now }
    ensures ran { IfOk result (RunsTo (inputs_of setup.now) (bank_seen holds bank.old) (bank_seen holds bank.new)) }
    ensures memory { OnErr result (Keeps (bank_seen holds bank.old) (bank_seen holds bank.new)
        × MayLeave (inputs_of setup.now) (bank_seen holds bank.old) (bank_seen holds bank.new)) }
{
    let files = &setup.files;
    let steps = &files.schedule.steps()[..setup.stop as usize];
    run_image(alloc, &files.config, &files.image, steps, bank)
}

/// Runs this on the bank. Where a module refuses, the answer is made: of the store of a step the report of the steps
/// before it, of the fill or the read its line.
pub fn run_on_bank(alloc: Global, setup: &Setup, bank: &mut ModuleBank) -> Result<Ran, OutOfMemory>
    requires { IsReady (bank_seen holds bank.old).size setup.now }
    ensures ran { IfOk result (RunsOnBank (inputs_of setup.now) (bank_seen holds bank.old) (bank_seen holds bank.new)) }
    ensures memory { OnErr result (Keeps (bank_seen holds bank.old) (bank_seen holds bank.new)
        × MayLeave (inputs_of setup.now) (bank_seen holds bank.old) (bank_seen holds bank.new)) }
{
    match run_setup(alloc, setup, bank)? {
        RunEnd::FillRefused { module } => refused(alloc, module, ModulePhase::Fill),
        RunEnd::ReadRefused { module } => refused(alloc, module, ModulePhase::Read),
        RunEnd::Told { run } => {
            if run.fault.is_none() {
                return Ok(Ran::Whole { run });
            }
            Ok(Ran::Refused {
                made: Made {
                    status: Status::ModuleFault,
                    text: report(alloc, &run, setup.mode())?,
                },
            })
        }
    }
}

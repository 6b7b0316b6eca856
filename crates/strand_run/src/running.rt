ghost use Rattle.std.specs.Prelude.{◌≤◌, All, length, IfOk, OnErr};
ghost use Rattle.strand_again.specs.Inputs.{inputs};
ghost use Rattle.strand_base.specs.declared.limits.TheConstants.{MOST_STEPS};
ghost use Rattle.strand_inputs.specs.Schedule.{IsBelow};
ghost use Rattle.strand_modules.specs.Bank.{Keeps};
ghost use Rattle.strand_modules.specs.Seen.{bank_seen};
ghost use Rattle.strand_run.specs.Outcome.{MayLeave, RunsTo};

use std::alloc::Global;
use strand_again::{AgainFault, Ran, run_steps};
use strand_base::OutOfMemory;
use strand_image::Image;
use strand_inputs::{Config, Step};
use strand_modules::{AtModule, ModuleBank};

/// How a run ended.
#[derive(Drop)]
pub enum RunEnd {
    /// This module, counted from 0, refused a word of the fill.
    FillRefused { module: u32 },
    /// This module refused to tell a word at the end.
    ReadRefused { module: u32 },
    /// The words were read.
    Told { run: Ran },
}

/// Fills the bank with the image's persistent words, makes the steps on the machine of these settings,
/// up to the first whose store a module refuses, and reads the bank.
pub fn run_image(
    alloc: Global,
    config: &Config,
    image: &Image,
    steps: &[Step],
    bank: &mut ModuleBank,
) -> Result<RunEnd, OutOfMemory>
    requires room { length image.now.persistent ≤ (bank_seen holds bank.old).size }
    requires few { length steps.now ≤ MOST_STEPS }
    requires below { All (IsBelow (length image.now.entries) config.now.buffers) steps.now }
    ensures ran { IfOk result
        (RunsTo (inputs config.now image.now steps.now) (bank_seen holds bank.old)
        (bank_seen holds bank.new)) }
    ensures memory { OnErr result (Keeps (bank_seen holds bank.old) (bank_seen holds bank.new)
        × MayLeave (inputs config.now image.now steps.now) (bank_seen holds bank.old)
        (bank_seen holds bank.new)) }
{
    if let Err(AtModule { module }) = bank.fill(image.persistent()) {
        return Ok(RunEnd::FillRefused { module });
    }
    match run_steps(alloc, config, image, steps, bank) {
        Ok(run) => Ok(RunEnd::Told { run }),
        Err(AgainFault::Read(refused)) => Ok(RunEnd::ReadRefused {
            module: refused.module,
        }),
        Err(AgainFault::OutOfMemory) => Err(OutOfMemory),
    }
}

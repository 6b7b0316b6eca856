ghost use Rattle.std.specs.Prelude.{◌≡◌, length, IfOk};
ghost use Rattle.strand_app.specs.Commands.Gen.{PutsFault, PutsGen, gen_reads, gen_rule};
ghost use Rattle.strand_app.specs.Generated.{IsGiven};
ghost use Rattle.strand_app.specs.Opening.{IsReady, inputs_of};
ghost use Rattle.strand_app.specs.Running.{MakesByCourse};
ghost use Rattle.strand_app.specs.Runs.{Comes};
ghost use Rattle.strand_app.specs.Summing.{TellsSummary};
ghost use Rattle.strand_app.specs.World.{world};
ghost use Rattle.strand_base.specs.FilesSeen.{FilesSeen};
ghost use Rattle.strand_modules.specs.Seen.{bank_seen};

use crate::commands::judge::status_of;
use crate::fetching::OpenFault;
use crate::generating::generated;
use crate::opening::{Setup, cut_off};
use crate::refusing::refuse;
use crate::running::run_setup;
use crate::status::{Made, Status};
use std::alloc::Global;
use strand_again::Ran as Run;
use strand_base::OutOfMemory;
use strand_inputs::Stop;
use strand_modules::ModuleBank;
use strand_report::{ModuleFault, ModulePhase, write_generated, write_module_fault, write_summary};
use strand_run::{RunEnd, module_fault, summary};

// What is run on a bank of so many words: all steps that are generated.
fn open_generated(alloc: Global, seed: u64, size: u64, bank: u64) -> Result<Setup, OpenFault>
    ensures given { IsGiven inputs_of (gen_reads bank seed size) result }
    ensures ready { IfOk result (IsReady bank) }
{
    let all = generated(alloc, seed, size)?;
    Ok(cut_off(all, Stop::End, bank)?)
}

// The answer where a module refused.
fn refused(alloc: Global, seed: u64, size: u64, fault: ModuleFault) -> Result<Made, OutOfMemory>
    ensures { IfOk result (λ made. PutsFault seed size fault made.status made.text.items) }
{
    let mut text = Vec::new(alloc);
    write_generated(seed, size, &mut text)?;
    write_module_fault(fault, &mut text)?;
    Ok(Made {
        status: Status::ModuleFault,
        text,
    })
}

// The answer where none did.
fn summary_of(
    alloc: Global,
    seed: u64,
    size: u64,
    setup: &Setup,
    run: &Run,
) -> Result<Made, OutOfMemory>
    requires persistent { run.now.machine.machine.program.sizes.persistent
        ≡ length setup.now.files.image.persistent }
    requires held { length run.now.held ≡ length setup.now.files.image.persistent }
    ensures { IfOk result (TellsSummary seed size setup.now run.now) }
{
    let summed = summary(alloc, run, setup.mode(), setup.files.image.persistent())?;
    let mut text = Vec::new(alloc);
    write_generated(seed, size, &mut text)?;
    write_summary(&summed, &mut text)?;
    Ok(Made {
        status: status_of(&summed.verdict),
        text,
    })
}

fn summary_on_bank(
    alloc: Global,
    seed: u64,
    size: u64,
    setup: &Setup,
    bank: &mut ModuleBank,
) -> Result<Made, OutOfMemory>
    requires { IsReady (bank_seen holds bank.old).size setup.now }
    ensures { MakesByCourse (inputs_of setup.now)
        (bank_seen holds bank.old) (bank_seen holds bank.new)
        (PutsGen seed size (inputs_of setup.now) (bank_seen holds bank.old)) result }
{
    match run_setup(alloc, setup, bank)? {
        RunEnd::FillRefused { module } => {
            let phase = ModulePhase::Fill;
            refused(alloc, seed, size, ModuleFault { module, phase })
        }
        RunEnd::ReadRefused { module } => {
            let phase = ModulePhase::Read;
            refused(alloc, seed, size, ModuleFault { module, phase })
        }
        RunEnd::Told { run } => match module_fault(run.fault) {
            Some(fault) => refused(alloc, seed, size, fault),
            None => summary_of(alloc, seed, size, setup, &run),
        },
    }
}

/// `gen SEED SIZE`: the summary of a generated run to its end, with the judge's verdict on the words that the bank holds
/// then.
pub fn judge_generated(
    alloc: Global,
    seed: u64,
    size: u64,
    bank: &mut ModuleBank,
) -> Result<Made, OutOfMemory>
    ensures { (files : FilesSeen) → Comes (gen_rule seed size (bank_seen holds bank.old))
        (world files (bank_seen holds bank.old)) (world files (bank_seen holds bank.new)) result }
{
    match open_generated(alloc, seed, size, bank.words()) {
        Ok(setup) => summary_on_bank(alloc, seed, size, &setup, bank),
        Err(fault) => refuse(alloc, fault),
    }
}

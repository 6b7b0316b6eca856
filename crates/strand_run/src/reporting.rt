ghost use Rattle.std.specs.Prelude.{◌≡◌, IfOk};
ghost use Rattle.std.specs.Option.{option_map};
ghost use Rattle.strand_base.specs.Puts.{Puts};
ghost use Rattle.strand_report.specs.Report.{report_text};
ghost use Rattle.strand_run.specs.Outcome.{view_of};
ghost use Rattle.strand_run.specs.Seen.{Reports, store_fault};

use crate::bubbles::bubbles_of;
use std::alloc::Global;
use strand_again::Ran;
use strand_base::OutOfMemory;
use strand_inputs::Mode;
use strand_order::build;
use strand_path::{Path, longest};
use strand_report::{ModuleFault, ModulePhase, RunView, write_run};
use strand_rules::StepFault;

/// The fault of a module that the refused store of a step is.
pub fn module_fault(fault: Option<StepFault>) -> Option<ModuleFault>
    ensures { result ≡ option_map store_fault fault }
{
    let fault = fault?;
    Some(ModuleFault {
        module: fault.module,
        phase: ModulePhase::Step { cycle: fault.step },
    })
}

// Appends the report of a run with this path.
fn put_report(alloc: Global, run: &Ran, path: &Path, into: &mut Vec<u8>) -> Result<(), OutOfMemory>
    ensures { Puts result (report_text (view_of run.now) path.now.chain)
        into.old.items into.new.items }
{
    let visible = run.machine.flatten()?;
    let bubbles = bubbles_of(alloc, run.turns.as_slice())?;
    let view = RunView {
        stop: run.machine.made(),
        cores: run.machine.cores(),
        trace: run.machine.trace(),
        bubbles: &bubbles,
        visible: &visible,
        held: run.held.as_slice(),
        durable: run.machine.durable(),
        path,
        counts: run.machine.all_counts(),
        fault: module_fault(run.fault),
    };
    write_run(&view, into)
}

/// The report of a run under this mode, with the chosen chain of its trace (docs/FORMATS.md).
pub fn report(alloc: Global, run: &Ran, mode: Mode) -> Result<Vec<u8>, OutOfMemory>
    ensures { IfOk result (λ text. Reports mode (view_of run.now) text.items) }
{
    let graph = build(alloc, run.machine.trace(), mode)?;
    let path = longest(alloc, &graph)?;
    let mut text = Vec::new(alloc);
    put_report(alloc, run, &path, &mut text)?;
    Ok(text)
}

ghost use Rattle.strand_base.specs.Puts.{Puts};
ghost use Rattle.strand_report.specs.Report.{fault_lines, report_text, stop_line};
ghost use Rattle.strand_report.specs.RunSeen.{view_of};

use crate::bubbles::put_bubbles;
use crate::caches::put_caches;
use crate::cores::put_cores;
use crate::durable::put_durable;
use crate::fields::Field::{Decimal, Word};
use crate::fields::put_fields;
use crate::members::put_members;
use crate::outs::put_outs;
use crate::words::{put_visible, put_words};
use crate::{ModuleFault, write_module_fault};
use strand_base::{OutOfMemory, PERSISTENT_BASE};
use strand_cache::Counts;
use strand_events::Trace;
use strand_exec::{CoreState, FlatMemory};
use strand_path::Path;
use strand_rules::BubbleAt;

/// What a run's report is made of.
#[derive(Clone, Copy)]
pub struct RunView<'a> {
    /// How many steps were made.
    pub stop: u64,
    /// The cores as they are then.
    pub cores: &'a [CoreState],
    /// What the cores did.
    pub trace: &'a Trace,
    /// The steps that did nothing.
    pub bubbles: &'a [BubbleAt],
    /// The memory that the cores see.
    pub visible: &'a FlatMemory,
    /// The words that the modules hold, from the address 0x40000000 on.
    pub held: &'a [u64],
    /// Whether each persist is durable, by the numbers of the persists.
    pub durable: &'a [bool],
    /// The chosen chain of the run's persists, which is printed, and what shows that none is longer.
    pub path: &'a Path,
    /// How many accesses of each core hit and missed.
    pub counts: &'a [Counts],
    /// What a module refused, if that ended the run.
    pub fault: Option<ModuleFault>,
}

fn put_stop(into: &mut Vec<u8>, stop: u64) -> Result<(), OutOfMemory>
    ensures { Puts result (stop_line stop) into.old.items into.new.items }
{
    put_fields(into, &[Word("stop")], &[Decimal(stop)])
}

fn put_fault(into: &mut Vec<u8>, fault: Option<ModuleFault>) -> Result<(), OutOfMemory>
    ensures { Puts result (fault_lines fault) into.old.items into.new.items }
{
    match fault {
        Some(fault) => write_module_fault(fault, into),
        None => Ok(()),
    }
}

/// Appends the report of a run (docs/FORMATS.md). It takes memory for the text alone.
///
/// `OutOfMemory`: a front of the report is appended.
pub fn write_run(view: &RunView<'_>, into: &mut Vec<u8>) -> Result<(), OutOfMemory>
    ensures { Puts result (report_text (view_of view.now) view.now.path.now.chain)
        into.old.items into.new.items }
{
    put_stop(into, view.stop)?;
    put_cores(into, view.cores)?;
    put_outs(into, view.trace.events())?;
    put_bubbles(into, view.bubbles)?;
    put_visible(into, view.visible)?;
    put_words(into, "pm", PERSISTENT_BASE, view.held)?;
    put_durable(into, view.durable)?;
    put_members(into, b"path", view.path.chain.as_slice())?;
    put_caches(into, view.counts)?;
    put_fault(into, view.fault)
}

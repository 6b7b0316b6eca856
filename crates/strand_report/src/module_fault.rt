ghost use Rattle.strand_base.specs.Puts.{Puts};
ghost use Rattle.strand_report.specs.FaultLines.{module_fault_line};

use crate::fields::Field::{Decimal, Word};
use crate::fields::put_fields;
use strand_base::OutOfMemory;

/// What a module was asked for.
#[derive(Clone, Copy, Debug, PartialEq, Eq)]
pub enum ModulePhase {
    /// Its first words, before the first step.
    Fill,
    /// The store of a step, which is counted from 1.
    Step { cycle: u64 },
    /// To tell its words, after the last step.
    Read,
}

/// What a module refused.
#[derive(Clone, Copy, Debug, PartialEq, Eq)]
pub struct ModuleFault {
    /// The module, counted from 0.
    pub module: u32,
    /// What it was asked for.
    pub phase: ModulePhase,
}

/// Appends `fault module M fill`, `fault module M step K` or `fault module M read`.
///
/// `OutOfMemory`: a front of the line is appended.
pub fn write_module_fault(fault: ModuleFault, into: &mut Vec<u8>) -> Result<(), OutOfMemory>
    ensures { Puts result (module_fault_line fault) into.old.items into.new.items }
{
    let front = [Word("fault"), Word("module"), Decimal(fault.module as u64)];
    match fault.phase {
        ModulePhase::Fill => put_fields(into, &front, &[Word("fill")]),
        ModulePhase::Step { cycle } => put_fields(into, &front, &[Word("step"), Decimal(cycle)]),
        ModulePhase::Read => put_fields(into, &front, &[Word("read")]),
    }
}

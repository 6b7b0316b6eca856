ghost use Rattle.std.specs.Prelude.{IfOk};
ghost use Rattle.strand_asm_lines.specs.Line.{HasRegisters, line_of};
ghost use Rattle.strand_asm.specs.Layout.{GivesAssembly, at_line};

use crate::AsmFault;
use std::alloc::Global;
use strand_asm_lines::{Line, LineError, read_line};

/// The parts of a line of the text.
pub(crate) fn read(alloc: Global, text: &[u8], number: u32) -> Result<Line, AsmFault>
    ensures gives { GivesAssembly result (at_line number (line_of text.now)) }
    ensures registers { IfOk result HasRegisters }
{
    match read_line(alloc, text, number) {
        Ok(line) => Ok(line),
        Err(LineError::Fault(fault)) => Err(AsmFault::Line(fault)),
        Err(LineError::OutOfMemory) => Err(AsmFault::OutOfMemory),
    }
}

ghost use Rattle.strand_base.specs.Puts.{Puts};
ghost use Rattle.strand_report.specs.FaultLines.{file_fault};

use crate::fields::Field::{Decimal, Word};
use crate::fields::put_fields;
use strand_base::OutOfMemory;

/// Appends `fault file K`: the file, counted from 1 in the order in which a command names its files, could not be
/// fetched.
///
/// `OutOfMemory`: a front of the line is appended.
pub fn write_file_fault(file: u32, into: &mut Vec<u8>) -> Result<(), OutOfMemory>
    ensures { Puts result (file_fault file) into.old.items into.new.items }
{
    put_fields(
        into,
        &[Word("fault")],
        &[Word("file"), Decimal(file as u64)],
    )
}

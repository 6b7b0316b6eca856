ghost use Rattle.strand_base.specs.Puts.{Puts};
ghost use Rattle.strand_report.specs.Generation.{generation_line};

use crate::fields::Field::{Decimal, Word};
use crate::fields::put_fields;
use strand_base::OutOfMemory;

/// Appends `generation G`.
///
/// `OutOfMemory`: a front of the line is appended.
pub fn write_generation(number: u64, into: &mut Vec<u8>) -> Result<(), OutOfMemory>
    ensures { Puts result (generation_line number) into.old.items into.new.items }
{
    put_fields(into, &[Word("generation")], &[Decimal(number)])
}

ghost use Rattle.std.specs.Prelude.{◌≡◌, ◌∷◌, decimal, length};
ghost use Rattle.std.specs.List.{flat_map};
ghost use Rattle.strand_base.specs.Puts.{Puts};
ghost use Rattle.strand_report.specs.Persists.{durable_line, marked};

use crate::fields::Field::Decimal;
use crate::fields::put_spaced;
use crate::members::put_count;
use strand_base::{OutOfMemory, put};

/// How many numbers are marked.
pub fn count_marked(marks: &[bool]) -> usize
    ensures { result ≡ length (marked marks.now) }
{
    let mut count = 0;
    for mark in marks {
        if *mark {
            count += 1;
        }
    }
    count
}

/// The numbers that are marked, ascending, each with a space before it.
fn put_marked(into: &mut Vec<u8>, marks: &[bool]) -> Result<(), OutOfMemory>
    ensures { Puts result (flat_map (λ n. 32 ∷ decimal n) (marked marks.now))
        into.old.items into.new.items }
{
    for (number, mark) in marks.iter().enumerate() {
        if *mark {
            put_spaced(into, Decimal(number as u64))?;
        }
    }
    Ok(())
}

/// Appends `durable C:`, and a space and a number for each of the C persists that are marked, ascending.
pub(crate) fn put_durable(into: &mut Vec<u8>, marks: &[bool]) -> Result<(), OutOfMemory>
    ensures { Puts result (durable_line marks.now) into.old.items into.new.items }
{
    put_count(into, b"durable", count_marked(marks))?;
    put_marked(into, marks)?;
    put(into, b"\n")
}

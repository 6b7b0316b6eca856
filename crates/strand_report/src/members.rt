// Lines of numbers.
ghost use Rattle.std.specs.Prelude.{◌∷◌, ◌++◌, codes, decimal};
ghost use Rattle.std.specs.List.{flat_map};
ghost use Rattle.strand_base.specs.Puts.{Puts};
ghost use Rattle.strand_report.specs.Persists.{members_line};

use crate::fields::Field::Decimal;
use crate::fields::put_spaced;
use strand_base::{OutOfMemory, put};

/// The front of such a line: its name, and how many numbers it has.
pub(crate) fn put_count(into: &mut Vec<u8>, name: &[u8], count: usize) -> Result<(), OutOfMemory>
    ensures { Puts result (name.now ++ ((32 ∷ decimal count) ++ codes ":"))
        into.old.items into.new.items }
{
    put(into, name)?;
    put_spaced(into, Decimal(count as u64))?;
    put(into, b":")
}

/// Numbers, each with a space before it.
fn put_numbers(into: &mut Vec<u8>, members: &[u32]) -> Result<(), OutOfMemory>
    ensures { Puts result (flat_map (λ n. 32 ∷ decimal n) members.now)
        into.old.items into.new.items }
{
    for member in members {
        put_spaced(into, Decimal(*member as u64))?;
    }
    Ok(())
}

/// Appends `NAME C:`, and a space and a number for each of the C members.
pub(crate) fn put_members(
    into: &mut Vec<u8>,
    name: &[u8],
    members: &[u32],
) -> Result<(), OutOfMemory>
    ensures { Puts result (members_line name.now members.now) into.old.items into.new.items }
{
    put_count(into, name, members.len())?;
    put_numbers(into, members)?;
    put(into, b"\n")
}

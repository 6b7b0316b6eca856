ghost use Rattle.strand_base.specs.Puts.{Puts};
ghost use Rattle.strand_report.specs.Verdict.{verdict_text};

use crate::fields::Field::{Decimal, Hex, Word};
use crate::fields::put_fields;
use crate::members::put_members;
use strand_base::OutOfMemory;
use strand_judge::Verdict;

/// Appends the line of a verdict: `yes C:`, and a space and a number for each of the C persists of the least set; or
/// `no H R`, with the word that was found and its rank (docs/FORMATS.md).
///
/// `OutOfMemory`: a front of the line is appended.
pub fn write_verdict(verdict: &Verdict, into: &mut Vec<u8>) -> Result<(), OutOfMemory>
    ensures { Puts result (verdict_text verdict.now) into.old.items into.new.items }
{
    match verdict {
        Verdict::Yes(list) => put_members(into, b"yes", list.as_slice()),
        Verdict::No { word, rank } => {
            put_fields(into, &[Word("no")], &[Hex(*word), Decimal(*rank as u64)])
        }
    }
}

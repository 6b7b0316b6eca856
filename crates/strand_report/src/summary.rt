ghost use Rattle.std.specs.Prelude.{◌∷◌, [], decimal};
ghost use Rattle.strand_base.specs.Puts.{Puts};
ghost use Rattle.strand_base.specs.Text.{line_text};
ghost use Rattle.strand_report.specs.Summary.{gen_line, judge_words, summary_text};

use crate::fields::Field::{Decimal, Hex, Word};
use crate::fields::put_fields;
use strand_base::OutOfMemory;
use strand_judge::Verdict;

/// What is told of a generated run.
#[derive(Debug, Drop)]
pub struct Summary {
    /// How many persists the cores made.
    pub persists: u64,
    /// How many of them are durable.
    pub durable: u64,
    /// How many members the chosen chain has.
    pub path: u64,
    /// How many of the steps were done; the others did nothing.
    pub done: u64,
    /// The judge's verdict on the words that the modules hold.
    pub verdict: Verdict,
}

/// Appends `gen SEED SIZE`.
///
/// `OutOfMemory`: a front of the line is appended.
pub fn write_generated(seed: u64, size: u64, into: &mut Vec<u8>) -> Result<(), OutOfMemory>
    ensures { Puts result (gen_line seed size) into.old.items into.new.items }
{
    put_fields(into, &[Word("gen")], &[Decimal(seed), Decimal(size)])
}

fn put_number(into: &mut Vec<u8>, name: &str, number: u64) -> Result<(), OutOfMemory>
    ensures { Puts result (line_text (name.now ∷ decimal number ∷ [])) into.old.items into.new.items }
{
    put_fields(into, &[Word(name)], &[Decimal(number)])
}

fn put_judge(into: &mut Vec<u8>, verdict: &Verdict) -> Result<(), OutOfMemory>
    ensures { Puts result (line_text (judge_words verdict.now)) into.old.items into.new.items }
{
    match verdict {
        Verdict::Yes(list) => put_fields(
            into,
            &[Word("judge")],
            &[Word("yes"), Decimal(list.as_slice().len() as u64)],
        ),
        Verdict::No { word, rank } => put_fields(
            into,
            &[Word("judge")],
            &[Word("no"), Hex(*word), Decimal(*rank as u64)],
        ),
    }
}

/// Appends the lines `persists P`, `durable D`, `path L`, `done X`, and `judge yes C`, where C is how many members the
/// least set has, or `judge no H R` (docs/FORMATS.md).
///
/// `OutOfMemory`: a front of the lines is appended.
pub fn write_summary(summary: &Summary, into: &mut Vec<u8>) -> Result<(), OutOfMemory>
    ensures { Puts result (summary_text summary.now) into.old.items into.new.items }
{
    put_number(into, "persists", summary.persists)?;
    put_number(into, "durable", summary.durable)?;
    put_number(into, "path", summary.path)?;
    put_number(into, "done", summary.done)?;
    put_judge(into, &summary.verdict)
}

ghost use Rattle.std.specs.Prelude.{◌≡◌};
ghost use Rattle.strand_base.specs.Puts.{Puts};
ghost use Rattle.strand_report.specs.Bubbles.{bubble_line, bubble_lines, cause_word};

use crate::fields::Field::{Decimal, Word};
use crate::fields::put_fields;
use strand_base::OutOfMemory;
use strand_rules::{BubbleAt, Cause};

fn word_of(cause: Cause) -> &'static str
    ensures { result.now ≡ cause_word cause }
{
    match cause {
        Cause::Ended => "ended",
        Cause::Join => "join",
        Cause::Conflict => "conflict",
        Cause::Queue => "queue",
        Cause::NoItem => "noitem",
        Cause::NoRoom => "noroom",
        Cause::NotEmpty => "notempty",
        Cause::NoEntry => "noentry",
        Cause::FlightFull => "flightfull",
        Cause::OlderWaits => "olderwaits",
    }
}

fn put_bubble(into: &mut Vec<u8>, bubble: BubbleAt) -> Result<(), OutOfMemory>
    ensures { Puts result (bubble_line bubble) into.old.items into.new.items }
{
    put_fields(
        into,
        &[Word("bubble"), Decimal(bubble.cycle)],
        &[Word(word_of(bubble.cause))],
    )
}

/// Appends `bubble K CAUSE` for each of these steps, in their order.
pub(crate) fn put_bubbles(into: &mut Vec<u8>, bubbles: &[BubbleAt]) -> Result<(), OutOfMemory>
    ensures { Puts result (bubble_lines bubbles.now) into.old.items into.new.items }
{
    for bubble in bubbles {
        put_bubble(into, *bubble)?;
    }
    Ok(())
}

ghost use Rattle.strand_base.specs.Puts.{Puts};
ghost use Rattle.strand_report.specs.Outs.{out_line, out_lines};

use crate::fields::Field::{Decimal, Hex, Word};
use crate::fields::put_fields;
use strand_base::OutOfMemory;
use strand_events::Event;

/// The line of an event, where it puts something out.
fn put_out(into: &mut Vec<u8>, event: Event) -> Result<(), OutOfMemory>
    ensures { Puts result (out_line event) into.old.items into.new.items }
{
    let Event::Out { core, value } = event else {
        return Ok(());
    };
    put_fields(into, &[Word("out"), Decimal(core as u64)], &[Hex(value)])
}

/// Appends the lines of what the cores put out, in the order of the trace.
pub(crate) fn put_outs(into: &mut Vec<u8>, events: &[Event]) -> Result<(), OutOfMemory>
    ensures { Puts result (out_lines events.now) into.old.items into.new.items }
{
    for event in events {
        put_out(into, *event)?;
    }
    Ok(())
}

ghost use Rattle.strand_base.specs.Puts.{Puts};
ghost use Rattle.strand_order.specs.Edges.{edges_of};
ghost use Rattle.strand_report.specs.Trace.{edge_line, edge_lines, event_line, event_lines, events_and_edges};

use crate::fields::Field::{Decimal, Hex, Word};
use crate::fields::put_fields;
use strand_base::OutOfMemory;
use strand_events::{Event, Trace};
use strand_order::{Edge, Graph};

/// The line of an event, before which there are so many persists.
fn put_event(
    into: &mut Vec<u8>,
    place: usize,
    persists: usize,
    event: Event,
) -> Result<(), OutOfMemory>
    ensures { Puts result (event_line place persists event) into.old.items into.new.items }
{
    let front = [Word("event"), Decimal(place as u64)];
    match event {
        Event::Load { core, word } => put_fields(
            into,
            &front,
            &[Word("load"), Decimal(core as u64), Hex(word)],
        ),
        Event::Store {
            persist: false,
            core,
            word,
            value,
        } => put_fields(
            into,
            &front,
            &[Word("store"), Decimal(core as u64), Hex(word), Hex(value)],
        ),
        Event::Store {
            persist: true,
            core,
            word,
            value,
        } => put_fields(
            into,
            &front,
            &[
                Word("store"),
                Decimal(core as u64),
                Hex(word),
                Hex(value),
                Word("persist"),
                Decimal(persists as u64),
            ],
        ),
        Event::Barrier { core } => put_fields(
            into,
            &front,
            &[Word("barrier"), Decimal(core as u64)],
        ),
        Event::NewStrand { core } => put_fields(
            into,
            &front,
            &[Word("newstrand"), Decimal(core as u64)],
        ),
        Event::Join { core } => put_fields(into, &front, &[Word("join"), Decimal(core as u64)]),
        Event::Out { core, value } => put_fields(
            into,
            &front,
            &[Word("out"), Decimal(core as u64), Hex(value)],
        ),
    }
}

fn put_events(into: &mut Vec<u8>, events: &[Event]) -> Result<(), OutOfMemory>
    ensures { Puts result (event_lines events.now) into.old.items into.new.items }
{
    let mut persists = 0;
    for (place, event) in events.iter().enumerate() {
        put_event(into, place, persists, *event)?;
        if event.is_persist() {
            persists += 1;
        }
    }
    Ok(())
}

fn put_edge(into: &mut Vec<u8>, edge: Edge) -> Result<(), OutOfMemory>
    ensures { Puts result (edge_line edge) into.old.items into.new.items }
{
    put_fields(
        into,
        &[Word("edge")],
        &[Decimal(edge.before as u64), Decimal(edge.after as u64)],
    )
}

fn put_edges(into: &mut Vec<u8>, edges: &[Edge]) -> Result<(), OutOfMemory>
    ensures { Puts result (edge_lines edges.now) into.old.items into.new.items }
{
    for edge in edges {
        put_edge(into, *edge)?;
    }
    Ok(())
}

/// Appends a line for each event of the trace, and then one for each edge of the graph, in their order
/// (docs/FORMATS.md). Its time is linear in both.
///
/// `OutOfMemory`: a front of the lines is appended.
pub fn write_trace(graph: &Graph, trace: &Trace, into: &mut Vec<u8>) -> Result<(), OutOfMemory>
    ensures { Puts result
        (events_and_edges trace.now.events (edges_of graph.now.mode graph.now.events))
        into.old.items into.new.items }
{
    put_events(into, trace.events())?;
    put_edges(into, graph.edges())
}

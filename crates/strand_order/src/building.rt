// The edges of a trace, event by event.
ghost use Rattle.std.specs.Prelude.{◌≡◌, suc, ◌<◌, ◌-◌, ◌^◌, ◌++◌, List, slice_get, Some, IfOk, OnOk, reverse};
ghost use Rattle.strand_base.specs.declared.limits.TheConstants.{CORE_ROOM};
ghost use Rattle.strand_base.specs.Counting.{list_below};
ghost use Rattle.strand_events.specs.declared.event.Event.{Event};
ghost use Rattle.strand_events.specs.Trace.{core_of};
ghost use Rattle.strand_order.specs.Graph.{is_edge};
ghost use Rattle.strand_order.specs.Edges.{edges_to, edges_of};
ghost use Rattle.strand_order.specs.Seen.{IsSeen};

use crate::edge::Edge;
use crate::seen::Seen;
use crate::sources::sources_of;
use crate::walking::{put_edges, walk};
use std::alloc::Global;
use strand_base::OutOfMemory;
use strand_events::{Event, Trace};
use strand_inputs::Mode;

/// The earlier events of the edges to event n, which is `e`, the last first.
fn sources_to(
    alloc: Global,
    seen: &Seen,
    mode: Mode,
    e: Event,
    n: u32,
) -> Result<Vec<u32>, OutOfMemory>
    requires seen { (t : List Event) × (slice_get t n ≡ Some e) × IsSeen t n seen.now }
    requires core { core_of e < CORE_ROOM }
    requires small { n < 2 ^ 32 - 1 }
    ensures { IfOk result (λ list. (t : List Event) → slice_get t n ≡ Some e → IsSeen t n seen.now
        → reverse list.items ≡ list_below n (λ i. is_edge mode t i n)) }
{
    let core = seen.cores[e.core() as usize];
    let sources = sources_of(mode, e, core, seen.word(e.word()));
    if e.is_access() {
        Ok(walk(alloc, &seen.word_links, sources)?)
    } else {
        Ok(walk(alloc, &seen.core_links, sources)?)
    }
}

// Puts the edges to event n at the end, and notes the event.
fn add_event(
    alloc: Global,
    edges: &mut Vec<Edge>,
    seen: &mut Seen,
    mode: Mode,
    e: Event,
    n: u32,
) -> Result<(), OutOfMemory>
    requires seen { (t : List Event) × (slice_get t n ≡ Some e) × IsSeen t n seen.old }
    requires core { core_of e < CORE_ROOM }
    requires small { n < 2 ^ 32 - 1 }
    ensures edges { OnOk result ((t : List Event) → slice_get t n ≡ Some e → IsSeen t n seen.old
        → edges.new.items ≡ edges.old.items ++ edges_to mode t n n) }
    ensures seen { OnOk result ((t : List Event) → slice_get t n ≡ Some e → IsSeen t n seen.old
        → IsSeen t (suc n) seen.new) }
{
    let list = sources_to(alloc, seen, mode, e, n)?;
    put_edges(edges, &list, n)?;
    seen.note(e, n)?;
    Ok(())
}

/// The edges of a trace, by the later event and then by the earlier.
pub(crate) fn edges_of(alloc: Global, trace: &Trace, mode: Mode) -> Result<Vec<Edge>, OutOfMemory>
    ensures { IfOk result (λ edges. edges.items ≡ edges_of mode trace.now.events) }
{
    let mut edges = Vec::new(alloc);
    let mut seen = Seen::new(alloc);
    for n in 0..trace.events().len() {
        add_event(
            alloc,
            &mut edges,
            &mut seen,
            mode,
            trace.events()[n],
            n as u32,
        )?;
    }
    Ok(edges)
}

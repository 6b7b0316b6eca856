ghost use Rattle.std.specs.Prelude.{◌≡◌, ◌<◌, ◌≤◌, ◌*◌, ◌^◌, length, IfOk};
ghost use Rattle.strand_order.specs.Edges.{edges_of};

use crate::building::edges_of;
use crate::edge::Edge;
use std::alloc::Global;
use std::marker::Model;
use strand_base::OutOfMemory;
use strand_events::{Event, Trace};
use strand_inputs::Mode;

/// The events of a trace, how they are ordered, and the edges that this gives. Contracts see the events and the
/// mode; the edges follow from them.
#[derive(Debug, Drop)]
pub struct Graph {
    events: Vec<Event>,
    mode: Mode,
    edges: Vec<Edge>,
}

impl Model for Graph {
    ghost use Rattle.strand_order.specs.GraphSeen.{GraphSeen};

    ghost Value = { GraphSeen };

    ghost use Rattle.strand_order.specs.GraphSeen.{IsKeptGraph};

    ghost view = { λ g. record { events = g.events.items; mode = g.mode } };

    ghost invariant = { λ g. IsKeptGraph g.events.items g.mode g.edges.items };
}

impl Graph {
    /// The events, the oldest first. It takes no memory.
    pub fn events(&self) -> &[Event]
        ensures events { result.now ≡ self.now.events }
        ensures small { length self.now.events < 2 ^ 32 }
    {
        &self.events
    }

    /// The edges, by the later event and then by the earlier, each of them once. Their paths between
    /// accesses are exactly persist order (`paths_are_persist_order`). There are at most five times as many as events. It
    /// takes no memory.
    pub fn edges(&self) -> &[Edge]
        ensures edges { result.now ≡ edges_of self.now.mode self.now.events }
        ensures few { length result.now ≤ 5 * length self.now.events }
    {
        &self.edges
    }
}

/// The graph of a trace (docs/graph.md). It goes once over the events, and from each back along the edges to it.
pub fn build(alloc: Global, trace: &Trace, mode: Mode) -> Result<Graph, OutOfMemory>
    ensures events { IfOk result (λ graph. graph.events ≡ trace.now.events) }
    ensures mode { IfOk result (λ graph. graph.mode ≡ mode) }
{
    Ok(Graph {
        events: trace.events().to_vec(alloc)?,
        mode,
        edges: edges_of(alloc, trace, mode)?,
    })
}

// Routes along edges, which rise as the list of the edges does.
ghost use Rattle.std.specs.Prelude.{◌≡◌, ℕ, ◌<◌, ◌≤◌, true, length, slice_get, slice_index};
ghost use Rattle.strand_path.specs.Checked.{is_from_to, IsRoute};
ghost use Rattle.strand_path.specs.Seeking.{stands_before, joins, IsSought};

use strand_events::Event;
use strand_order::{Edge, Graph};

// Whether all are numbers of events.
fn are_events(events: &[Event], route: &[u32]) -> bool
    ensures yes { result ≡ true → (k : ℕ) → k < length route.now → slice_index route.now k < length events.now }
    ensures no { ((k : ℕ) → k < length route.now → slice_index route.now k < length events.now) → result ≡ true }
{
    for event in route {
        if *event as usize >= events.len() {
            return false;
        }
    }
    true
}

// Whether the edge is from event i to event j.
fn is_from_to(edge: Edge, i: u32, j: u32) -> bool
    ensures { result ≡ is_from_to edge i j }
{
    edge.before == i && edge.after == j
}

// Whether the edge stands before one from event i to event j.
fn stands_before(edge: Edge, i: u32, j: u32) -> bool
    ensures { result ≡ stands_before edge i j }
{
    edge.after < j || (edge.after == j && edge.before < i)
}

// The first place, from a place on, whose edge doesn't stand before one from event i to event j.
fn seek(edges: &[Edge], from: usize, i: u32, j: u32) -> usize
    requires { from ≤ length edges.now }
    ensures { IsSought edges.now i j from result }
{
    let mut place = from;
    while place < edges.len() && stands_before(edges[place], i, j) {
        place += 1;
    }
    place
}

// Whether the edge at a place is from event i to event j.
fn joins(edges: &[Edge], place: usize, i: u32, j: u32) -> bool
    ensures { result ≡ joins i j (slice_get edges.now place) }
{
    match edges.get(place) {
        Some(edge) => is_from_to(*edge, i, j),
        None => false,
    }
}

/// Whether each event of a route is joined to the next by an edge.
pub(crate) fn is_route(graph: &Graph, route: &[u32]) -> bool
    ensures yes { result ≡ true → IsRoute graph.now.mode graph.now.events route.now }
    ensures no { IsRoute graph.now.mode graph.now.events route.now → result ≡ true }
{
    if !are_events(graph.events(), route) {
        return false;
    }
    let edges = graph.edges();
    let mut place = 0;
    for k in 1..route.len() {
        place = seek(edges, place, route[k - 1], route[k]);
        if !joins(edges, place, route[k - 1], route[k]) {
            return false;
        }
    }
    true
}

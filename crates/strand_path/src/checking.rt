ghost use Rattle.std.specs.Prelude.{◌≡◌, ℕ, ◌<◌, ◌≤◌, true, List, length, slice_index};
ghost use Rattle.strand_events.specs.Trace.{is_persist, event_is};
ghost use Rattle.strand_path.specs.Chains.{IsChain, events_of};
ghost use Rattle.strand_path.specs.Checked.{has_at, IsRoute, numbers_on, AreLevels, goes_up, greatest_below, IsChecked};

use crate::numbering::number_from;
use crate::path::Path;
use crate::routes::is_route;
use strand_events::Event;
use strand_order::Graph;

// Whether event k is a persist.
pub(crate) fn is_persist_at(events: &[Event], k: usize) -> bool
    requires { k < length events.now }
    ensures { result ≡ event_is is_persist events.now k }
{
    events[k].is_persist()
}

// Whether the number stands at a place of the chain.
fn has_at(chain: &[u32], place: usize, number: u32) -> bool
    ensures { result ≡ has_at chain.now place number }
{
    place < chain.len() && chain[place] == number
}

// Whether the chain has the numbers of the persists on the route.
fn is_along(graph: &Graph, route: &[u32], chain: &[u32]) -> bool
    requires { IsRoute graph.now.mode graph.now.events route.now }
    ensures yes { result ≡ true → chain.now ≡ numbers_on graph.now.events route.now }
    ensures no { chain.now ≡ numbers_on graph.now.events route.now → result ≡ true }
{
    let events = graph.events();
    let mut next = 0;
    let mut at: u32 = 0;
    let mut number: u32 = 0;
    for k in 0..route.len() {
        number = number_from(events, at, number, route[k]);
        at = route[k];
        if is_persist_at(events, at as usize) {
            if !has_at(chain, next, number) {
                return false;
            }
            next += 1;
        }
    }
    next == chain.len()
}

// Whether each persist has a level of at least 1.
fn are_positive(events: &[Event], levels: &[u32]) -> bool
    requires { length levels.now ≡ length events.now }
    ensures yes { result ≡ true → (p : ℕ) → event_is is_persist events.now p ≡ true → 1 ≤ slice_index levels.now p }
    ensures no { ((p : ℕ) → event_is is_persist events.now p ≡ true → 1 ≤ slice_index levels.now p) → result ≡ true }
{
    for p in 0..events.len() {
        if events[p].is_persist() && levels[p] == 0 {
            return false;
        }
    }
    true
}

// Whether the level of event i is at most, or below where j is a persist, that of event j.
fn goes_up(events: &[Event], levels: &[u32], i: u32, j: u32) -> bool
    requires i { i < length levels.now }
    requires j { j < length levels.now }
    requires long { length levels.now ≡ length events.now }
    ensures { result ≡ goes_up events.now levels.now i j }
{
    let (from, to) = (levels[i as usize], levels[j as usize]);
    if events[j as usize].is_persist() {
        from < to
    } else {
        from <= to
    }
}

fn are_levels(graph: &Graph, levels: &[u32]) -> bool
    ensures yes { result ≡ true → AreLevels graph.now.mode graph.now.events levels.now }
    ensures no { AreLevels graph.now.mode graph.now.events levels.now → result ≡ true }
{
    if levels.len() != graph.events().len() || !are_positive(graph.events(), levels) {
        return false;
    }
    for edge in graph.edges() {
        if !goes_up(graph.events(), levels, edge.before, edge.after) {
            return false;
        }
    }
    true
}

// The greatest level of the persists, or 0 where there is none.
pub(crate) fn greatest(events: &[Event], levels: &[u32]) -> u32
    requires { length levels.now ≡ length events.now }
    ensures { result ≡ greatest_below events.now levels.now (length events.now) }
{
    let mut greatest = 0;
    for k in 0..events.len() {
        if events[k].is_persist() {
            greatest = levels[k].max(greatest);
        }
    }
    greatest
}

fn is_checked(graph: &Graph, path: &Path) -> bool
    ensures yes { result ≡ true → IsChecked graph.now.mode graph.now.events path.now }
    ensures no { IsChecked graph.now.mode graph.now.events path.now → result ≡ true }
{
    let (chain, route, levels) = (
        path.chain.as_slice(),
        path.route.as_slice(),
        path.levels.as_slice(),
    );
    if !is_route(graph, route) || !is_along(graph, route, chain) {
        return false;
    }
    are_levels(graph, levels) && greatest(graph.events(), levels) as usize == chain.len()
}

/// Whether the route's events are joined by edges, the chain is its persists, the levels rise as they should, and the
/// greatest level of a persist is the chain's length. Then the chain is one of persist order, and no
/// chain is longer. It takes no memory.
pub fn check_path(graph: &Graph, path: &Path) -> bool
    ensures yes { result ≡ true → IsChecked graph.now.mode graph.now.events path.now }
    ensures no { IsChecked graph.now.mode graph.now.events path.now → result ≡ true }
    ensures chain { result ≡ true → IsChain graph.now.mode graph.now.events (events_of graph.now.events path.now.chain) }
    ensures longest { result ≡ true → (other : List ℕ) → IsChain graph.now.mode graph.now.events other → length other ≤ length path.now.chain }
{
    is_checked(graph, path)
}

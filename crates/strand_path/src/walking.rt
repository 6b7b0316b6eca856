// The route through the members of a chain.
ghost use Rattle.std.specs.Prelude.{◌≡◌, ◌<◌, ◌≤◌, ◌++◌, List, map, reverse, slice_index, IfOk, OnOk};
ghost use Rattle.strand_inputs.specs.declared.mode.Mode.{Mode};
ghost use Rattle.strand_events.specs.declared.event.Event.{Event};
ghost use Rattle.strand_events.specs.Trace.{persist_number};
ghost use Rattle.strand_path.specs.Checked.{IsRoute, numbers_on};
ghost use Rattle.strand_path.specs.Picking.{ArePicked, IsAppendedPath};
ghost use Rattle.strand_path.specs.Tracing.{IsLinked, AreTraces};

use crate::tracing::Traces;
use std::alloc::Global;
use strand_base::{Numbers, OutOfMemory};
use strand_order::Graph;

// Puts the numbers of a list, the last first, at the end.
fn put_back(route: &mut Numbers, list: &[u32]) -> Result<(), OutOfMemory>
    ensures { OnOk result (route.new ≡ route.old ++ reverse list.now) }
{
    let mut k = list.len();
    while k > 0 {
        k -= 1;
        route.push(list[k])?;
    }
    Ok(())
}

// Puts the events of the way from p, the first persist of the level below q's, to q at the end, without p.
fn walk(
    alloc: Global,
    traces: &Traces,
    p: u32,
    q: u32,
    route: &mut Numbers,
) -> Result<(), OutOfMemory>
    requires linked { (mode : Mode) × (t : List Event) × IsLinked mode t traces.now }
    requires first { slice_index traces.now.firsts.items q ≡ p }
    requires via { 1 ≤ slice_index traces.now.vias.items q }
    requires less { p < q }
    ensures { OnOk result ((mode : Mode) (t : List Event) → IsLinked mode t traces.now
        → IsAppendedPath mode t p q route.old route.new) }
{
    let mut back = Vec::new(alloc);
    let mut x = q;
    while x != p {
        back.push(x)?;
        x = traces.vias[x as usize] - 1;
    }
    put_back(route, &back)?;
    Ok(())
}

/// A route along edges whose persists are the members.
pub(crate) fn route_of(
    alloc: Global,
    graph: &Graph,
    traces: &Traces,
    members: &[u32],
) -> Result<Numbers, OutOfMemory>
    requires traces { AreTraces graph.now.mode graph.now.events traces.now }
    requires picked { ArePicked graph.now.mode graph.now.events traces.now.levels.items members.now 0 }
    ensures route { IfOk result (IsRoute graph.now.mode graph.now.events) }
    ensures persists { IfOk result (λ route. numbers_on graph.now.events route
        ≡ map (persist_number graph.now.events) members.now) }
{
    let mut route = Numbers::new(alloc);
    if members.is_empty() {
        return Ok(route);
    }
    route.push(members[0])?;
    for k in 1..members.len() {
        walk(alloc, traces, members[k - 1], members[k], &mut route)?;
    }
    Ok(route)
}

/// The same numbers.
pub(crate) fn copied(alloc: Global, list: &[u32]) -> Result<Numbers, OutOfMemory>
    ensures { IfOk result (λ numbers. numbers ≡ list.now) }
{
    let mut numbers = Numbers::new(alloc);
    for n in list {
        numbers.push(*n)?;
    }
    Ok(numbers)
}

// Walking back along links.
ghost use Rattle.std.specs.Prelude.{◌≡◌, ◌≤◌, ◌-◌, ◌==◌, ◌++◌, length, map, reverse, slice_index, IfOk, OnOk, if◌then◌else◌};
ghost use Rattle.strand_order.specs.Edges.{edge_from};
ghost use Rattle.strand_order.specs.Lasts.{cut};
ghost use Rattle.strand_order.specs.Walks.{AreBack, IsWalked};

use crate::edge::Edge;
use crate::lasts::Sources;
use std::alloc::Global;
use strand_base::OutOfMemory;

// A last event below the floor is none.
pub(crate) fn cut(floor: u32, last: u32) -> u32
    ensures { result ≡ cut floor last }
{
    if floor <= last { last } else { 0 }
}

fn single_after(single: u32, next: u32) -> u32
    ensures { result ≡ (if single == next then 0 else single) }
{
    if single == next { 0 } else { single }
}

fn last_after(links: &[u32], floor: u32, last: u32, next: u32) -> u32
    requires last { last ≤ length links.now }
    requires next { 1 ≤ next }
    ensures { result ≡ (if last == next then cut floor (slice_index links.now (next - 1)) else last) }
{
    if last == next {
        cut(floor, links[next as usize - 1])
    } else {
        last
    }
}

/// The events of a chain from its floor on and the one event more, the last first.
pub(crate) fn walk(alloc: Global, links: &[u32], sources: Sources) -> Result<Vec<u32>, OutOfMemory>
    requires back { AreBack links.now }
    requires last { sources.last ≤ length links.now }
    ensures { IfOk result (λ list. IsWalked links.now sources list.items) }
{
    let mut list = Vec::new(alloc);
    let mut last = cut(sources.floor, sources.last);
    let mut single = sources.single;
    while last > 0 || single > 0 {
        let next = last.max(single);
        list.push(next - 1)?;
        single = single_after(single, next);
        last = last_after(links, sources.floor, last, next);
    }
    Ok(list)
}

/// Puts the edges from the events of a list, the last first, to event j.
pub(crate) fn put_edges(edges: &mut Vec<Edge>, list: &[u32], j: u32) -> Result<(), OutOfMemory>
    ensures { OnOk result (edges.new.items ≡ edges.old.items ++ map (edge_from j) (reverse list.now)) }
{
    let mut k = list.len();
    while k > 0 {
        k -= 1;
        edges.push(Edge {
            before: list[k],
            after: j,
        })?;
    }
    Ok(())
}

// The marked events, and the edges to an event.
ghost use Rattle.std.specs.Prelude.{◌≡◌, ℕ, ◌<◌, ◌≤◌, ◌++◌, [], ◌∷◌, true, length, slice_set, if◌then◌else◌, IfOk, OnOk};
ghost use Rattle.strand_events.specs.Order.{set_of};
ghost use Rattle.strand_order.specs.Lasts.{since_below};
ghost use Rattle.strand_order.specs.Edges.{edges_of};
ghost use Rattle.strand_judge.specs.Worklist.{IsListed};
ghost use Rattle.strand_judge.specs.Gathered.{IsMarkedMore};
ghost use Rattle.strand_judge.specs.Ends.{leads_at, AreEnds, IsFollowed};

use std::alloc::Global;
use strand_base::OutOfMemory;
use strand_order::Graph;

/// Marks event x, and puts it on the list where it wasn't marked.
pub(crate) fn mark(marks: &mut Vec<bool>, list: &mut Vec<u32>, x: u32) -> Result<(), OutOfMemory>
    requires { x < length marks.old.items }
    ensures marks { OnOk result (marks.new.items ≡ slice_set marks.old.items x true) }
    ensures list { OnOk result (list.new.items
        ≡ (if set_of marks.old.items x then list.old.items else list.old.items ++ x ∷ [])) }
{
    if !marks[x as usize] {
        list.push(x)?;
    }
    marks[x as usize] = true;
    Ok(())
}

/// Marks the event that a number stands for, if there is one.
pub(crate) fn mark_since(
    marks: &mut Vec<bool>,
    list: &mut Vec<u32>,
    since: u32,
) -> Result<(), OutOfMemory>
    requires within { since ≤ length marks.old.items }
    ensures { OnOk result ((n : ℕ) → IsListed n marks.old.items list.old.items
        → IsMarkedMore n since marks.old.items list.old.items marks.new.items list.new.items) }
{
    if since == 0 {
        return Ok(());
    }
    mark(marks, list, since - 1)?;
    Ok(())
}

/// For each event, one more than the place of the last edge to it, or 0.
pub fn ends_of(alloc: Global, graph: &Graph) -> Result<Vec<usize>, OutOfMemory>
    ensures { IfOk result (λ ends. AreEnds graph.now.mode graph.now.events
        (length (edges_of graph.now.mode graph.now.events)) ends.items) }
{
    let mut ends = vec![in alloc; 0; graph.events().len()]?;
    let edges = graph.edges();
    for k in 0..edges.len() {
        ends[edges[k].after as usize] = k + 1;
    }
    Ok(ends)
}

/// Marks the earlier events of the edges to event j, of which the last ends at `end`.
pub(crate) fn follow(
    graph: &Graph,
    end: usize,
    j: u32,
    marks: &mut Vec<bool>,
    list: &mut Vec<u32>,
) -> Result<(), OutOfMemory>
    requires j { j < length graph.now.events }
    requires end { end ≡ since_below (length (edges_of graph.now.mode graph.now.events))
        (leads_at graph.now.mode graph.now.events j) }
    requires listed { IsListed (length graph.now.events) marks.old.items list.old.items }
    ensures { OnOk result (IsFollowed graph.now.mode graph.now.events j
        marks.old.items list.old.items marks.new.items list.new.items) }
{
    let edges = graph.edges();
    let mut k = end;
    while k > 0 && edges[k - 1].after == j {
        k -= 1;
        mark(marks, list, edges[k].before)?;
    }
    Ok(())
}

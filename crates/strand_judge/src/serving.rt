// What a marked event brings with it.
ghost use Rattle.std.specs.Prelude.{ℕ, ◌<◌, List, length, OnOk};
ghost use Rattle.strand_events.specs.Places.{LieIn};
ghost use Rattle.strand_order.specs.Edges.{edges_of};
ghost use Rattle.strand_judge.specs.Words.{crash_of};
ghost use Rattle.strand_judge.specs.Ends.{AreEnds};
ghost use Rattle.strand_judge.specs.Offered.{AreOffered};
ghost use Rattle.strand_judge.specs.Worklist.{IsListed};
ghost use Rattle.strand_judge.specs.Gathered.{IsBrought};

use crate::listing::{follow, mark_since};
use crate::offers::{Offered, asked};
use strand_base::OutOfMemory;
use strand_order::Graph;

/// Marks what event j brings with it.
pub(crate) fn serve(
    graph: &Graph,
    ends: &[usize],
    offered: &Offered,
    found: &[u64],
    j: u32,
    marks: &mut Vec<bool>,
    list: &mut Vec<u32>,
) -> Result<(), OutOfMemory>
    requires j { j < length graph.now.events }
    requires ends { AreEnds graph.now.mode graph.now.events
        (length (edges_of graph.now.mode graph.now.events)) ends.now }
    requires within { LieIn graph.now.events (length found.now) }
    requires offered { (first : List ℕ) → AreOffered graph.now.events (crash_of first found.now) (length found.now) 0
        offered.now.firsts.items offered.now.nexts.items }
    requires listed { IsListed (length graph.now.events) marks.old.items list.old.items }
    ensures { OnOk result ((first : List ℕ) → IsBrought graph.now.mode graph.now.events (crash_of first found.now) j
        marks.old.items list.old.items marks.new.items list.new.items) }
{
    follow(graph, ends[j as usize], j, marks, list)?;
    let next = asked(offered, graph.events()[j as usize], j as usize, found);
    mark_since(marks, list, next)?;
    Ok(())
}

// The roots, and what each needed event brings with it.
ghost use Rattle.std.specs.Prelude.{◌≡◌, ℕ, suc, ◌<◌, ◌≤◌, [], List, true, false, replicate, length, OnOk};
ghost use Rattle.strand_inputs.specs.declared.mode.Mode.{Mode};
ghost use Rattle.strand_events.specs.Numbers.{numbers_of};
ghost use Rattle.strand_events.specs.Order.{is_joined, set_of};
ghost use Rattle.strand_events.specs.Places.{LieIn};
ghost use Rattle.strand_events.specs.Trace.{persists_of};
ghost use Rattle.strand_order.specs.Edges.{edges_of};
ghost use Rattle.strand_order.specs.Lasts.{since_below};
ghost use Rattle.strand_judge.specs.Judged.{Crash};
ghost use Rattle.strand_judge.specs.Words.{crash_of};
ghost use Rattle.strand_judge.specs.Offered.{AreOffered};
ghost use Rattle.strand_judge.specs.Ends.{leads_at, AreEnds, IsFollowed};
ghost use Rattle.strand_judge.specs.Gathered.{AreJoined, AreForced, IsBrought, IsMarkedMore};
ghost use Rattle.strand_judge.specs.Worklist.{IsListed};
ghost use Rattle.strand_refute.specs.Work.{HasReason, KeepsExplained};
ghost use Rattle.strand_refute.specs.Facts.{IsGathered};

use crate::certificate::Reason;
use crate::work::{Work, need};
use strand_base::OutOfMemory;
use strand_events::Event;
use strand_judge::{Offered, asked};
use strand_order::Graph;

/// Notes the joined persists, where nothing is needed yet.
pub(crate) fn need_joined(
    events: &[Event],
    persists: &[u32],
    joined: &[u32],
    work: &mut Work,
) -> Result<(), OutOfMemory>
    requires persists { persists.now ≡ persists_of events.now }
    requires joined { joined.now ≡ numbers_of events.now (is_joined events.now) }
    requires marks { work.old.marks.items ≡ replicate (length events.now) false }
    requires list { work.old.list.items ≡ [] }
    requires targets { length work.old.targets.items ≡ length events.now }
    ensures joined { OnOk result (AreJoined events.now (length joined.now) persists.now joined.now
        work.new.marks.items work.new.list.items) }
    ensures targets { OnOk result (length work.new.targets.items ≡ length events.now) }
    ensures explained { OnOk result ((mode : Mode) (crash : Crash)
        → KeepsExplained mode events.now crash work.old work.new) }
{
    for p in joined {
        let x = persists[*p as usize];
        need(work, events[x as usize], x, x, Reason::Joined)?;
    }
    Ok(())
}

// Notes the persist that a number stands for, if there is one.
fn need_since(
    events: &[Event],
    work: &mut Work,
    since: u32,
    reason: Reason,
) -> Result<(), OutOfMemory>
    requires within { since ≤ length events.now }
    requires marks { length work.old.marks.items ≡ length events.now }
    requires targets { length work.old.targets.items ≡ length events.now }
    ensures more { OnOk result (IsListed (length events.now)
        work.old.marks.items work.old.list.items
        → IsMarkedMore (length events.now) since work.old.marks.items work.old.list.items
        work.new.marks.items work.new.list.items) }
    ensures targets { OnOk result (length work.new.targets.items ≡ length events.now) }
    ensures explained { OnOk result ((mode : Mode) (crash : Crash)
        → ((q : ℕ) → since ≡ suc q → HasReason mode events.now crash work.old.lines.items q reason)
        → KeepsExplained mode events.now crash work.old work.new) }
{
    if since == 0 {
        return Ok(());
    }
    let x = since - 1;
    need(work, events[x as usize], x, x, reason)?;
    Ok(())
}

/// Notes each word's forced persist.
pub(crate) fn need_forced(
    events: &[Event],
    offered: &Offered,
    first: &[u64],
    found: &[u64],
    work: &mut Work,
) -> Result<(), OutOfMemory>
    requires same { length first.now ≡ length found.now }
    requires within { LieIn events.now (length found.now) }
    requires offered { AreOffered events.now (crash_of first.now found.now) (length found.now) 0
        offered.now.firsts.items offered.now.nexts.items }
    requires listed { IsListed (length events.now) work.old.marks.items work.old.list.items }
    requires targets { length work.old.targets.items ≡ length events.now }
    ensures forced { OnOk result (AreForced events.now first.now found.now
        offered.now.firsts.items (length found.now)
        work.old.marks.items work.old.list.items work.new.marks.items work.new.list.items) }
    ensures targets { OnOk result (length work.new.targets.items ≡ length events.now) }
    ensures explained { OnOk result ((mode : Mode)
        → KeepsExplained mode events.now (crash_of first.now found.now) work.old work.new) }
{
    for place in 0..found.len() {
        if first[place] != found[place] {
            need_since(
                events,
                work,
                offered.firsts[place],
                Reason::Match { after: None },
            )?;
        }
    }
    Ok(())
}

/// Notes the earlier events of the edges to event j, of which the last ends at `end`.
fn follow(graph: &Graph, end: usize, j: u32, work: &mut Work) -> Result<(), OutOfMemory>
    requires j { j < length graph.now.events }
    requires end { end ≡ since_below (length (edges_of graph.now.mode graph.now.events))
        (leads_at graph.now.mode graph.now.events j) }
    requires listed { IsListed (length graph.now.events) work.old.marks.items work.old.list.items }
    requires marked { set_of work.old.marks.items j ≡ true }
    requires targets { length work.old.targets.items ≡ length graph.now.events }
    ensures followed { OnOk result (IsFollowed graph.now.mode graph.now.events j
        work.old.marks.items work.old.list.items work.new.marks.items work.new.list.items) }
    ensures targets { OnOk result (length work.new.targets.items ≡ length graph.now.events) }
    ensures explained { OnOk result ((crash : Crash)
        → KeepsExplained graph.now.mode graph.now.events crash work.old work.new) }
{
    let edges = graph.edges();
    let events = graph.events();
    let target = work.targets[j as usize];
    let mut k = end;
    while k > 0 && edges[k - 1].after == j {
        k -= 1;
        let x = edges[k].before;
        need(
            work,
            events[x as usize],
            x,
            target,
            Reason::Order { after: target },
        )?;
    }
    Ok(())
}

/// Notes what event j, which is needed, brings with it.
pub(crate) fn serve(
    graph: &Graph,
    ends: &[usize],
    offered: &Offered,
    found: &[u64],
    j: u32,
    work: &mut Work,
) -> Result<(), OutOfMemory>
    requires j { j < length graph.now.events }
    requires ends { AreEnds graph.now.mode graph.now.events
        (length (edges_of graph.now.mode graph.now.events)) ends.now }
    requires within { LieIn graph.now.events (length found.now) }
    requires offered { IsGathered graph.now.events found.now offered.now }
    requires listed { IsListed (length graph.now.events) work.old.marks.items work.old.list.items }
    requires marked { set_of work.old.marks.items j ≡ true }
    requires targets { length work.old.targets.items ≡ length graph.now.events }
    ensures brought { OnOk result ((first : List ℕ)
        → IsBrought graph.now.mode graph.now.events (crash_of first found.now) j
        work.old.marks.items work.old.list.items work.new.marks.items work.new.list.items) }
    ensures targets { OnOk result (length work.new.targets.items ≡ length graph.now.events) }
    ensures explained { OnOk result ((first : List ℕ)
        → KeepsExplained graph.now.mode graph.now.events (crash_of first found.now)
        work.old work.new) }
{
    follow(graph, ends[j as usize], j, work)?;
    let events = graph.events();
    let next = asked(offered, events[j as usize], j as usize, found);
    need_since(events, work, next, Reason::Match { after: Some(j) })?;
    Ok(())
}

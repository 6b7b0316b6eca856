// The roots: the joined persists, and each word's forced one.
ghost use Rattle.std.specs.Prelude.{◌≡◌, [], length, OnOk, replicate, false};
ghost use Rattle.strand_events.specs.Trace.{persists_of};
ghost use Rattle.strand_events.specs.Order.{is_joined};
ghost use Rattle.strand_events.specs.Numbers.{numbers_of};
ghost use Rattle.strand_events.specs.Places.{LieIn};
ghost use Rattle.strand_events.specs.declared.event.Event.{Event};
ghost use Rattle.strand_judge.specs.Words.{crash_of};
ghost use Rattle.strand_judge.specs.Worklist.{IsListed};
ghost use Rattle.strand_judge.specs.Offered.{AreOffered};
ghost use Rattle.strand_judge.specs.Gathered.{AreJoined, AreForced};

use crate::listing::{mark, mark_since};
use crate::offers::Offered;
use strand_base::OutOfMemory;
use strand_events::Event;

/// Marks the joined persists, where none is marked yet.
pub(crate) fn mark_joined(
    events: &[Event],
    persists: &[u32],
    joined: &[u32],
    marks: &mut Vec<bool>,
    list: &mut Vec<u32>,
) -> Result<(), OutOfMemory>
    requires persists { persists.now ≡ persists_of events.now }
    requires joined { joined.now ≡ numbers_of events.now (is_joined events.now) }
    requires marks { marks.old.items ≡ replicate (length events.now) false }
    requires list { list.old.items ≡ [] }
    ensures { OnOk result (AreJoined events.now (length joined.now) persists.now joined.now marks.new.items list.new.items) }
{
    for p in joined {
        mark(marks, list, persists[*p as usize])?;
    }
    Ok(())
}

/// Marks each word's forced persist.
pub(crate) fn mark_forced(
    events: &[Event],
    offered: &Offered,
    first: &[u64],
    found: &[u64],
    marks: &mut Vec<bool>,
    list: &mut Vec<u32>,
) -> Result<(), OutOfMemory>
    requires same { length first.now ≡ length found.now }
    requires within { LieIn events.now (length found.now) }
    requires offered { AreOffered events.now (crash_of first.now found.now) (length found.now) 0
        offered.now.firsts.items offered.now.nexts.items }
    requires listed { IsListed (length events.now) marks.old.items list.old.items }
    ensures { OnOk result (AreForced events.now first.now found.now offered.now.firsts.items (length found.now)
        marks.old.items list.old.items marks.new.items list.new.items) }
{
    for place in 0..found.len() {
        if first[place] != found[place] {
            mark_since(marks, list, offered.firsts[place])?;
        }
    }
    Ok(())
}

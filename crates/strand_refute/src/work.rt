// The events that are needed so far, and the lines that say why.
ghost use Rattle.std.specs.Prelude.{◌≡◌, ◌<◌, ◌++◌, [], ◌∷◌, true, false, replicate, length, slice_set, if◌then◌else◌, IfOk, OnOk};
ghost use Rattle.strand_events.specs.Order.{set_of};
ghost use Rattle.strand_events.specs.Trace.{is_access};
ghost use Rattle.strand_refute.specs.Work.{targets_after, lines_after};

use crate::certificate::{Forced, Reason};
use std::alloc::Global;
use strand_base::OutOfMemory;
use strand_events::Event;

/// The events that are needed so far: marks on them, and their list in the order in which they were found. `targets` has
/// for each of them an access: itself, or for a barrier or a join the needed access that a path from it leads to. `lines`
/// says of each of the accesses why it is needed.
#[derive(Drop)]
pub(crate) struct Work {
    pub(crate) marks: Vec<bool>,
    pub(crate) list: Vec<u32>,
    pub(crate) targets: Vec<u32>,
    pub(crate) lines: Vec<Forced>,
}

/// Nothing is needed yet, of so many events.
pub(crate) fn no_work(alloc: Global, events: usize) -> Result<Work, OutOfMemory>
    ensures marks { IfOk result (λ w. w.marks.items ≡ replicate events false) }
    ensures list { IfOk result (λ w. w.list.items ≡ []) }
    ensures targets { IfOk result (λ w. w.targets.items ≡ replicate events 0) }
    ensures lines { IfOk result (λ w. w.lines.items ≡ []) }
{
    Ok(Work {
        marks: vec![in alloc; false; events]?,
        list: Vec::new(alloc),
        targets: vec![in alloc; 0; events]?,
        lines: Vec::new(alloc),
    })
}

/// Notes event x, which is e, where it wasn't noted: an access with its reason, and any other with its target.
pub(crate) fn need(
    work: &mut Work,
    e: Event,
    x: u32,
    target: u32,
    reason: Reason,
) -> Result<(), OutOfMemory>
    requires marks { x < length work.old.marks.items }
    requires targets { x < length work.old.targets.items }
    ensures marks { OnOk result (work.new.marks.items ≡ slice_set work.old.marks.items x true) }
    ensures list { OnOk result (work.new.list.items
        ≡ (if set_of work.old.marks.items x then work.old.list.items
        else work.old.list.items ++ x ∷ [])) }
    ensures targets { OnOk result (work.new.targets.items
        ≡ (if set_of work.old.marks.items x then work.old.targets.items
        else targets_after e x target work.old.targets.items)) }
    ensures lines { OnOk result (work.new.lines.items
        ≡ (if set_of work.old.marks.items x then work.old.lines.items
        else lines_after e x reason work.old.lines.items)) }
{
    if !work.marks[x as usize] {
        work.list.push(x)?;
        if e.is_access() {
            work.targets[x as usize] = x;
            work.lines.push(Forced { event: x, reason })?;
        } else {
            work.targets[x as usize] = target;
        }
    }
    work.marks[x as usize] = true;
    Ok(())
}

// The persists that have the crash image's value.
ghost use Rattle.std.specs.Prelude.{◌≡◌, ◌+◌, ◌<◌, ◌^◌, ◌==◌, true, List, ℕ, length, IfOk};
ghost use Rattle.strand_events.specs.declared.event.Event.{Event};
ghost use Rattle.strand_events.specs.Trace.{is_persist, word_of};
ghost use Rattle.strand_base.specs.Places.{persistent_place};
ghost use Rattle.strand_events.specs.Places.{LieIn};
ghost use Rattle.strand_judge.specs.Words.{crash_of};
ghost use Rattle.strand_judge.specs.Offered.{nexts_after, first_offers_after, asked_of, AreOffered};

use crate::images::persistent_place;
use std::alloc::Global;
use strand_base::OutOfMemory;
use strand_events::Event;

/// For each word the first persist that has the value which was found there, and for each persist the next one to
/// its word that does; each is one more than the event's number, or 0 where there is none.
#[derive(Drop)]
pub struct Offered {
    pub firsts: Vec<u32>,
    pub nexts: Vec<u32>,
}

// Notes event k.
fn note(offered: &mut Offered, e: Event, k: usize, found: &[u64])
    requires place { is_persist e ≡ true → persistent_place (word_of e) < length found.now }
    requires firsts { length offered.old.firsts.items ≡ length found.now }
    requires nexts { k < length offered.old.nexts.items }
    requires small { k + 1 < 2 ^ 32 }
    ensures nexts { offered.new.nexts.items
        ≡ nexts_after e k offered.old.firsts.items offered.old.nexts.items }
    ensures firsts { offered.new.firsts.items
        ≡ first_offers_after e k found.now offered.old.firsts.items }
{
    if e.is_persist() {
        let place = persistent_place(e.word());
        offered.nexts[k] = offered.firsts[place];
        if e.value() == found[place] {
            offered.firsts[place] = k as u32 + 1;
        }
    }
}

/// Goes over the events from the last to the first.
pub fn gather(alloc: Global, events: &[Event], found: &[u64]) -> Result<Offered, OutOfMemory>
    requires small { length events.now < 2 ^ 32 }
    requires within { LieIn events.now (length found.now) }
    ensures { IfOk result (λ o. (first : List ℕ)
        → AreOffered events.now (crash_of first found.now) (length found.now) 0 o.firsts.items o.nexts.items) }
{
    let mut offered = Offered {
        firsts: vec![in alloc; 0; found.len()]?,
        nexts: vec![in alloc; 0; events.len()]?,
    };
    let mut k = events.len();
    while k > 0 {
        k -= 1;
        note(&mut offered, events[k], k, found);
    }
    Ok(offered)
}

/// One more than the persist that event j, which is e, asks for, or 0.
pub fn asked(offered: &Offered, e: Event, j: usize, found: &[u64]) -> u32
    requires place { is_persist e ≡ true → persistent_place (word_of e) < length found.now }
    requires nexts { j < length offered.now.nexts.items }
    ensures { result ≡ asked_of e j found.now offered.now.nexts.items }
{
    if e.is_persist() {
        if e.value() == found[persistent_place(e.word())] {
            0
        } else {
            offered.nexts[j]
        }
    } else {
        0
    }
}

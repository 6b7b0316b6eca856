// A pass over the entries of a buffer, the oldest first.
ghost use Rattle.std.specs.Prelude.{◌≡◌, ◌<◌, ◌≤◌, ◌-◌, ◌==◌, false, nat_le, length, slice_get, slice_index_or, IfSome, if◌then◌else◌};
ghost use Rattle.strand_base.specs.declared.limits.TheConstants.{MOST_RING};
ghost use Rattle.strand_buffer.specs.Entries.{epoch_at, is_buffered, is_met_by, entry_is, word_waits, is_eligible, eligible_places};
ghost use Rattle.strand_buffer.specs.Links.{AreLinked};
ghost use Rattle.strand_buffer.specs.Ring.{IsRing};

use crate::{Entry, Stage};
use strand_base::{CORE_ROOM, MOST_RING};

// The most entries of a ring.
const PLACES: usize = MOST_RING as usize;

// Whether entry i waits to be sent.
fn is_buffered(entries: &[Entry], i: usize) -> bool
    requires { i < length entries.now }
    ensures { result ≡ entry_is is_buffered entries.now i }
{
    match entries[i].stage {
        Stage::Buffered => true,
        Stage::Sent | Stage::Released => false,
    }
}

// Whether entry i is of the oldest entry's epoch.
fn is_lowest(entries: &[Entry], i: usize) -> bool
    requires { i < length entries.now }
    ensures { result ≡ (epoch_at entries.now i == epoch_at entries.now 0) }
{
    entries[i].epoch == entries[0].epoch
}

// Whether an entry that waits has entry i's word and stands before it: what was found of the latest
// earlier entry of that word, so far back.
fn waits_before(waits: &[bool; PLACES], i: usize, distance: u32) -> bool
    requires some { 0 < distance }
    requires within { i < MOST_RING }
    ensures { result
        ≡ (if nat_le distance i then slice_index_or waits.now (i - distance) false else false) }
{
    let distance = distance as usize;
    distance <= i && waits[i - distance]
}

// Whether of each core as many first persists are durable as the wait of entry i asks for.
fn is_met_by(entries: &[Entry], i: usize, durable: &[u32; CORE_ROOM]) -> bool
    requires { i < length entries.now }
    ensures { result ≡ entry_is (is_met_by durable.now) entries.now i }
{
    let mut over = false;
    for c in 0..CORE_ROOM {
        if durable[c] < entries[i].wait[c] {
            over = true;
        }
    }
    !over
}

// Whether entry i may be sent, where it is known whether an earlier one of its word waits.
#[tactic(auto, using(crate::proofs::LowestEpoch::eligible_lowest))]
fn is_eligible(entries: &[Entry], i: usize, blocked: bool, durable: &[u32; CORE_ROOM]) -> bool
    requires ring { IsRing entries.now }
    requires within { i < length entries.now }
    requires blocked { blocked ≡ word_waits entries.now i }
    ensures { result ≡ is_eligible durable.now entries.now i }
{
    is_buffered(entries, i) && is_lowest(entries, i) && !blocked && is_met_by(entries, i, durable)
}

// The place of the eligible entry that has so many of them before it. One turn an entry: whether an
// entry that waits has a word is kept for each entry passed, and found again by its link.
pub(crate) fn eligible_at(
    entries: &[Entry],
    links: &[u32],
    j: u32,
    durable: &[u32; CORE_ROOM],
) -> Option<usize>
    requires ring { IsRing entries.now }
    requires linked { AreLinked entries.now links.now }
    requires few { length entries.now ≤ MOST_RING }
    ensures place { result ≡ slice_get (eligible_places durable.now entries.now) j }
    ensures within { IfSome result (λ i. i < length entries.now) }
{
    let mut waits = [false; PLACES];
    let mut passed: u32 = 0;
    for i in 0..entries.len() {
        let blocked = waits_before(&waits, i, links[i]);
        if is_eligible(entries, i, blocked, durable) {
            if passed == j {
                return Some(i);
            }
            passed += 1;
        }
        waits[i] = is_buffered(entries, i) || blocked;
    }
    None
}

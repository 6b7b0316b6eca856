// Whether the last line of a certificate is accepted.
ghost use Rattle.std.specs.Prelude.{◌≡◌, ◌↔◌, true, ℕ, List, length};
ghost use Rattle.strand_events.specs.Order.{set_of};
ghost use Rattle.strand_events.specs.Places.{LieIn};
ghost use Rattle.strand_events.specs.declared.event.Event.{Event};
ghost use Rattle.strand_judge.specs.Words.{crash_of};
ghost use Rattle.strand_judge.specs.Offered.{AreOffered};
ghost use Rattle.strand_refute.specs.Accepted.{IsAcceptedEnding, IsNeverMade, IsNeverMadeAfter};
ghost use Rattle.strand_refute.specs.Facts.{IsGathered};
ghost use Rattle.strand_refute.specs.Lines.{HasAcceptedEnding};

use crate::certificate::Ending;
use crate::lines::is_needed;
use strand_base::PERSISTENT_BASE;
use strand_events::Event;
use strand_judge::{Offered, persistent_place};

// Whether no persist gives the crash image's value at the word, which isn't the initial one.
fn is_never_made(offered: &Offered, first: &[u64], found: &[u64], word: u64) -> bool
    requires same { length first.now ≡ length found.now }
    requires long { length offered.now.firsts.items ≡ length found.now }
    ensures { (t : List Event) → AreOffered t (crash_of first.now found.now) (length found.now) 0
        offered.now.firsts.items offered.now.nexts.items
        → (result ≡ true) ↔ IsNeverMade t (crash_of first.now found.now) word }
{
    let place = persistent_place(word);
    if place >= found.len() || PERSISTENT_BASE + 8 * place as u64 != word {
        return false;
    }
    first[place] != found[place] && offered.firsts[place] == 0
}

// Whether event last is a persist to the word without the crash image's value, and no later one to it has that.
fn is_never_made_after(
    events: &[Event],
    offered: &Offered,
    found: &[u64],
    needed: &[bool],
    word: u64,
    last: u32,
) -> bool
    requires needed { length needed.now ≡ length events.now }
    requires within { LieIn events.now (length found.now) }
    requires offered { IsGathered events.now found.now offered.now }
    ensures { (first : List ℕ) → (result ≡ true)
        ↔ IsNeverMadeAfter events.now (crash_of first found.now) (set_of needed.now) word last }
{
    if !is_needed(needed, last) {
        return false;
    }
    let event = events[last as usize];
    if !event.is_persist() || event.word() != word {
        return false;
    }
    event.value() != found[persistent_place(word)] && offered.nexts[last as usize] == 0
}

// Whether a last line is accepted, where these events are needed.
fn ends(
    events: &[Event],
    offered: &Offered,
    first: &[u64],
    found: &[u64],
    needed: &[bool],
    ending: Ending,
) -> bool
    requires needed { length needed.now ≡ length events.now }
    requires same { length first.now ≡ length found.now }
    requires within { LieIn events.now (length found.now) }
    requires offered { IsGathered events.now found.now offered.now }
    ensures { (result ≡ true) ↔ IsAcceptedEnding events.now (crash_of first.now found.now)
        (set_of needed.now) ending }
{
    match ending.last {
        None => is_never_made(offered, first, found, ending.word),
        Some(last) => is_never_made_after(events, offered, found, needed, ending.word, last),
    }
}

/// Whether there is a last line and it is accepted, where these events are needed. It takes no memory.
pub(crate) fn is_accepted_ending(
    events: &[Event],
    offered: &Offered,
    first: &[u64],
    found: &[u64],
    needed: &[bool],
    ending: Option<Ending>,
) -> bool
    requires needed { length needed.now ≡ length events.now }
    requires same { length first.now ≡ length found.now }
    requires within { LieIn events.now (length found.now) }
    requires offered { IsGathered events.now found.now offered.now }
    ensures { (result ≡ true) ↔ HasAcceptedEnding events.now (crash_of first.now found.now)
        (set_of needed.now) ending }
{
    match ending {
        None => false,
        Some(ending) => ends(events, offered, first, found, needed, ending),
    }
}

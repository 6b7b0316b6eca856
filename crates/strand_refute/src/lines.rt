// Whether a line that names an event is accepted.
ghost use Rattle.std.specs.Prelude.{◌≡◌, ◌<◌, ◌↔◌, ◌^◌, true, ℕ, List, suc, length};
ghost use Rattle.strand_events.specs.Order.{set_of};
ghost use Rattle.strand_events.specs.Places.{LieIn};
ghost use Rattle.strand_events.specs.Trace.{word_at};
ghost use Rattle.strand_judge.specs.Words.{crash_of};
ghost use Rattle.strand_judge.specs.Offered.{Asks, IsForced};
ghost use Rattle.strand_inputs.specs.declared.mode.Mode.{Mode};
ghost use Rattle.strand_refute.specs.declared.certificate.Reason.TheVariants.{Match};
ghost use Rattle.strand_refute.specs.Accepted.{Holds, IsAcceptedForced};
ghost use Rattle.strand_refute.specs.Facts.{AreFacts, IsGathered};

use crate::certificate::{Forced, Reason};
use crate::facts::Facts;
use crate::ordering::comes_directly_before;
use strand_events::{Event, Trace};
use strand_inputs::Mode;
use strand_judge::{Offered, asked, persistent_place};

/// Whether event e, which a certificate names, is needed. It takes no memory.
pub(crate) fn is_needed(needed: &[bool], e: u32) -> bool
    ensures { result ≡ set_of needed.now e }
{
    (e as usize) < needed.len() && needed[e as usize]
}

// Whether persist q is the next with the crash image's value after event p, which asks for it.
fn asks_for(events: &[Event], offered: &Offered, found: &[u64], p: usize, q: usize) -> bool
    requires p { p < length events.now }
    requires small { length events.now < 2 ^ 32 }
    requires q { q < length events.now }
    requires within { LieIn events.now (length found.now) }
    requires offered { IsGathered events.now found.now offered.now }
    ensures { (first : List ℕ) → (result ≡ true) ↔ Asks events.now (crash_of first found.now) p q }
{
    asked(offered, events[p], p, found) == q as u32 + 1
}

// Whether event q is the first persist to its word with the crash image's value, which isn't the initial one.
fn is_forced(events: &[Event], offered: &Offered, first: &[u64], found: &[u64], q: usize) -> bool
    requires q { q < length events.now }
    requires small { length events.now < 2 ^ 32 }
    requires same { length first.now ≡ length found.now }
    requires within { LieIn events.now (length found.now) }
    requires offered { IsGathered events.now found.now offered.now }
    ensures { (word : ℕ) → word ≡ word_at events.now q
        → (result ≡ true) ↔ IsForced events.now (crash_of first.now found.now) word q }
{
    let event = events[q];
    if !event.is_persist() {
        return false;
    }
    let place = persistent_place(event.word());
    first[place] != found[place] && offered.firsts[place] == q as u32 + 1
}

// Whether event e has the crash image's value first: of all persists to its word, or of those later than a needed one.
fn is_matched(
    events: &[Event],
    offered: &Offered,
    first: &[u64],
    found: &[u64],
    needed: &[bool],
    e: usize,
    after: Option<u32>,
) -> bool
    requires e { e < length events.now }
    requires small { length events.now < 2 ^ 32 }
    requires needed { length needed.now ≡ length events.now }
    requires same { length first.now ≡ length found.now }
    requires within { LieIn events.now (length found.now) }
    requires offered { IsGathered events.now found.now offered.now }
    ensures { (mode : Mode) → (result ≡ true) ↔ Holds mode events.now (crash_of first.now found.now)
        (set_of needed.now) e (Match after) }
{
    match after {
        None => is_forced(events, offered, first, found, e),
        Some(after) => {
            is_needed(needed, after) && asks_for(events, offered, found, after as usize, e)
        }
    }
}

// Whether a reason holds for event e.
fn holds(
    trace: &Trace,
    mode: Mode,
    facts: &Facts,
    first: &[u64],
    found: &[u64],
    needed: &[bool],
    line: Forced,
) -> bool
    requires event { line.event < length trace.now.events }
    requires needed { length needed.now ≡ length trace.now.events }
    requires same { length first.now ≡ length found.now }
    requires within { LieIn trace.now.events (length found.now) }
    requires facts { AreFacts trace.now.events found.now facts.now }
    ensures { (result ≡ true) ↔ Holds mode trace.now.events (crash_of first.now found.now)
        (set_of needed.now) line.event line.reason }
{
    let events = trace.events();
    let e = line.event as usize;
    match line.reason {
        Reason::Joined => facts.joined[e],
        Reason::Order { after } => {
            is_needed(needed, after)
                && comes_directly_before(trace, mode, &facts.joins, e, after as usize)
        }
        Reason::Match { after } => {
            is_matched(events, &facts.offered, first, found, needed, e, after)
        }
    }
}

/// Whether a line that names an event is accepted, where these events are needed. It takes no memory.
pub(crate) fn is_accepted(
    trace: &Trace,
    mode: Mode,
    facts: &Facts,
    first: &[u64],
    found: &[u64],
    needed: &[bool],
    line: Forced,
) -> bool
    requires needed { length needed.now ≡ length trace.now.events }
    requires same { length first.now ≡ length found.now }
    requires within { LieIn trace.now.events (length found.now) }
    requires facts { AreFacts trace.now.events found.now facts.now }
    ensures { (result ≡ true) ↔ IsAcceptedForced mode trace.now.events
        (crash_of first.now found.now) (set_of needed.now) line }
{
    let e = line.event as usize;
    e < needed.len() && !needed[e] && holds(trace, mode, facts, first, found, needed, line)
}

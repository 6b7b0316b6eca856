// What the rules of a write find in the requests and in the trace.
ghost use Rattle.std.specs.Prelude.{◌≡◌, ◌<◌, ◌≤◌, true, IfSome, Some, length, slice_get};
ghost use Rattle.strand_base.specs.Places.{persistent_place};
ghost use Rattle.strand_events.specs.Trace.{event_is, is_persist, persist_number, word_at, value_at};
ghost use Rattle.strand_rules.specs.Cycle.{has_word_of, older_waits};

use crate::pipeline::Pipeline;
use strand_base::PERSISTENT_BASE;
use strand_events::Event;

impl Pipeline {
    /// The persist of the request at place j of those in flight.
    pub(crate) fn request_at(&self, j: u32) -> Option<usize>
        ensures request { result ≡ slice_get self.now.state.flight j }
        ensures persist { IfSome result (λ p. event_is is_persist self.now.state.now.trace p ≡ true) }
    {
        let p = self.flight.get(j as usize)?;
        Some(*p as usize)
    }

    // Whether the request at place i of those in flight has event p's word.
    fn has_word_of(&self, i: usize, p: usize) -> bool
        requires i { i < length self.now.state.flight }
        requires p { p < length self.now.state.now.trace }
        ensures { result ≡ has_word_of self.now.state p i }
    {
        let events = self.trace.events();
        events[self.flight[i] as usize].word() == events[p].word()
    }

    /// Whether an older request than the one at place j, of persist p, has its word.
    pub(crate) fn older_waits(&self, j: u32, p: usize) -> bool
        requires request { slice_get self.now.state.flight j ≡ Some p }
        requires persist { event_is is_persist self.now.state.now.trace p ≡ true }
        ensures { result ≡ older_waits self.now.state j p }
    {
        let mut found = false;
        for i in 0..j as usize {
            if self.has_word_of(i, p) {
                found = true;
            }
        }
        found
    }
}

// The number of a persist among the persists.
pub(crate) fn persist_number(events: &[Event], p: usize) -> usize
    requires { p ≤ length events.now }
    ensures { result ≡ persist_number events.now p }
{
    let mut count = 0;
    for k in 0..p {
        if events[k].is_persist() {
            count += 1;
        }
    }
    count
}

// Where a persist is stored, its word's place among the persistent words, and its value.
pub(crate) fn request(events: &[Event], p: usize) -> (u64, u64)
    requires { event_is is_persist events.now p ≡ true }
    ensures place { result.0 ≡ persistent_place (word_at events.now p) }
    ensures value { result.1 ≡ value_at events.now p }
{
    match events[p] {
        Event::Store { word, value, .. } => (word.saturating_sub(PERSISTENT_BASE) / 8, value),
        _ => (0, 0),
    }
}

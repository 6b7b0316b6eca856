// What the rule of conflicts finds in the past for the next event of a core.
ghost use Rattle.std.specs.Prelude.{◌≡◌, ◌<◌, ◌+◌, ◌++◌, ◌&&◌, [], ◌∷◌, ℕ, length};
ghost use Rattle.strand_events.specs.Order.{set_of};
ghost use Rattle.strand_events.specs.Trace.{core_at, core_of};
ghost use Rattle.strand_rules.specs.Cycle.{access_waits, must_wait, some_wait};
ghost use Rattle.strand_rules.specs.Looking.{next_strand, is_in_next, opposes};

use crate::past::Past;
use strand_base::CORE_ROOM;
use strand_events::Event;
use strand_inputs::{Conflict, Mode};

impl<'a> Past<'a> {
    /// The strand number of core n's next event.
    pub(crate) fn next_strand(&self, n: u32) -> u32
        ensures { result ≡ next_strand self.now.config.mode self.now.state.now.trace n }
    {
        let mut count: u32 = 0;
        if let Mode::Strand = self.pipeline.mode() {
            for k in 0..self.events().len() {
                if self.events()[k].is_new_strand() && self.events()[k].core() == n {
                    count += 1;
                }
            }
        }
        count
    }

    /// Whether event a is of the strand of the next event, which is this one of its core.
    pub(crate) fn is_in_next(&self, event: Event, strand: u32, a: usize) -> bool
        requires a { a < length self.now.state.now.trace }
        requires strand { strand ≡ next_strand self.now.config.mode self.now.state.now.trace
            (core_of event) }
        ensures { result ≡ is_in_next self.now.config.mode self.now.state.now.trace event a }
    {
        self.events()[a].core() == event.core() && self.pipeline.strand_of(a) == strand
    }

    // Whether access a conflicts with the next event, which is of the given strand of its core, and
    // is of another strand.
    fn opposes(&self, event: Event, strand: u32, a: usize) -> bool
        requires a { a < length self.now.state.now.trace }
        requires strand { strand ≡ next_strand self.now.config.mode self.now.state.now.trace
            (core_of event) }
        ensures { result ≡ opposes self.now.config.mode self.now.state.now.trace event a }
    {
        let earlier = self.events()[a];
        earlier.is_access()
            && event.is_access()
            && earlier.word() == event.word()
            && (earlier.is_store() || event.is_store())
            && !self.is_in_next(event, strand, a)
    }

    // Notes event a where it is a persist that isn't durable, by its core.
    fn note_wait(&self, a: usize, waiting: &mut [bool])
        requires a { a < length self.now.state.now.trace }
        requires core { core_at self.now.state.now.trace a < length waiting.old }
        ensures length { length waiting.new ≡ length waiting.old }
        ensures marks { (n : ℕ) → n < length waiting.old
            → set_of waiting.old n
            ≡ some_wait self.now.state.now.trace (set_of self.now.state.durable) n a
            → set_of waiting.new n
            ≡ some_wait self.now.state.now.trace (set_of self.now.state.durable) n (a + 1) }
    {
        let event = self.events()[a];
        if event.is_persist() && !self.durable()[a] {
            waiting[event.core() as usize] = true;
        }
    }

    // Whether access a holds the next event up, where each core's mark says whether a persist of it
    // up to there isn't durable.
    fn holds_up(&self, waiting: &[bool], event: Event, strand: u32, a: usize) -> bool
        requires a { a < length self.now.state.now.trace }
        requires core { core_at self.now.state.now.trace a < length waiting.now }
        requires strand { strand ≡ next_strand self.now.config.mode self.now.state.now.trace
            (core_of event) }
        ensures { result ≡ (opposes self.now.config.mode self.now.state.now.trace event a
            && set_of waiting.now (core_at self.now.state.now.trace a)) }
    {
        self.opposes(event, strand, a) && waiting[self.events()[a].core() as usize]
    }

    // Whether an access of another strand holds the next event up. It goes over the trace once, and
    // keeps for each core whether a persist up to there isn't durable.
    fn must_wait(&self, event: Event) -> bool
        ensures { result ≡ must_wait self.now.config.mode (self.now.state.now.trace ++ event ∷ [])
            (set_of self.now.state.durable) (length self.now.state.now.trace) }
    {
        let events = self.events();
        let strand = self.next_strand(event.core());
        let mut waiting = [false; CORE_ROOM];
        let mut found = false;
        for a in 0..events.len() {
            self.note_wait(a, &mut waiting);
            if self.holds_up(&waiting, event, strand, a) {
                found = true;
            }
        }
        found
    }

    /// Whether under stall the next event waits for what conflicts with it.
    pub(crate) fn access_waits(&self, event: Event) -> bool
        ensures { result ≡ access_waits self.now.config.conflict self.now.config.mode
            self.now.state.now.trace (set_of self.now.state.durable) event }
    {
        match self.conflict() {
            Conflict::Stall => event.is_access() && self.must_wait(event),
            Conflict::Tag => false,
        }
    }
}

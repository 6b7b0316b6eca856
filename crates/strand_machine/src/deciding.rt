// What the parts tell of an instruction's event.
ghost use Rattle.std.specs.Prelude.{◌≡◌, ◌<◌, ◌≤◌, ◌++◌, ◌==◌, [], ◌∷◌, true, IfSome, length, nat_lt, slice_index};
ghost use Rattle.strand_base.specs.declared.limits.TheConstants.{CORE_ROOM};
ghost use Rattle.strand_base.specs.Counting.{any_below};
ghost use Rattle.strand_events.specs.Fits.{EventFits};
ghost use Rattle.strand_events.specs.Order.{set_of};
ghost use Rattle.strand_events.specs.Trace.{is_access};
ghost use Rattle.strand_events.specs.Waits.{wait_vector};
ghost use Rattle.strand_inputs.specs.declared.conflict.Conflict.TheVariants.{Stall, Tag};
ghost use Rattle.strand_rules.specs.Cycle.{access_waits, join_unmet, join_waits, made_turn, must_wait, queued, some_wait};
ghost use Rattle.strand_tags.specs.Traces.{noted_wait};
ghost use Rattle.strand_machine.specs.Machine.{FitsCore, IsCovered, some_missing};
ghost use Rattle.strand_machine.specs.Stand.{tally_at};

use crate::Machine;
use crate::parts::Parts;
use crate::tally::CoreTally;
use strand_base::CORE_ROOM;
use strand_events::Event;
use strand_inputs::Conflict;
use strand_rules::{Cause, Turn, is_item};
use strand_tags::CountVector;

impl Machine {
    // Whether a JoinStrand of core n waits: its queue isn't empty, or not all of its persists are durable, or
    // under tag the wait of some access of it isn't met.
    fn join_waits(&self, n: u32) -> bool
        requires { n < length self.now.machine.state.now.cores }
        ensures { result ≡ join_waits self.now.machine.config self.now.machine.state n }
    {
        !self.queue(n).is_empty() || self.some_wait(n) || self.join_unmet(n)
    }

    // What is counted of core n.
    fn tally(&self, n: u32) -> &CoreTally
        requires { n < length self.now.machine.state.now.cores }
        ensures { result.now ≡ tally_at self.now.parts n }
    {
        self.parts.tally(n)
    }

    // Whether some persist of core n isn't durable.
    fn some_wait(&self, n: u32) -> bool
        requires { n < length self.now.machine.state.now.cores }
        ensures { result ≡ some_wait self.now.machine.state.now.trace
            (set_of self.now.machine.state.durable) n (length self.now.machine.state.now.trace) }
    {
        self.keeps();
        let tally = self.tally(n);
        tally.first() < tally.made()
    }

    // Whether of some core more persists are asked for than its first ones that are all durable.
    fn some_missing(&self, counts: &[u32; CORE_ROOM]) -> bool
        ensures { result ≡ some_missing self.now.machine.state counts.now }
    {
        self.pipeline.keeps();
        self.parts.some_missing(counts)
    }

    // Whether under tag the wait of some access of core n isn't met.
    fn join_unmet(&self, n: u32) -> bool
        requires { n < length self.now.machine.state.now.cores }
        ensures { result ≡ join_unmet self.now.machine.config.conflict self.now.machine.config.mode
            self.now.machine.state.now.trace (set_of self.now.machine.state.durable) n }
    {
        self.keeps();
        match self.config().conflict {
            Conflict::Stall => false,
            Conflict::Tag => self.some_missing(&self.tally(n).waits().all.counts),
        }
    }

    // Whether under stall an event of core n waits for an access that conflicts with it.
    fn access_waits(&self, n: u32, event: Event) -> bool
        requires core { n < length self.now.machine.state.now.cores }
        requires marked { EventFits event }
        requires fits { FitsCore self.now.machine.program.sizes n event }
        ensures { result ≡ access_waits self.now.machine.config.conflict self.now.machine.config.mode
            self.now.machine.state.now.trace (set_of self.now.machine.state.durable) event }
    {
        match self.config().conflict {
            Conflict::Stall => event.is_access() && self.must_wait(n, event),
            Conflict::Tag => false,
        }
    }

    // The wait of core n's next event, if there is one: zeros under stall, and where it is no access.
    pub(crate) fn next_wait(&self, n: u32, event: Option<Event>) -> CountVector
        requires core { n < length self.now.machine.state.now.cores }
        requires fits { IfSome event (FitsCore self.now.machine.program.sizes n) }
        ensures { IfSome event (λ e. result.counts ≡ noted_wait self.now.machine.config.conflict
            self.now.machine.config.mode (self.now.machine.state.now.trace ++ e ∷ [])
            (length self.now.machine.state.now.trace)) }
    {
        let none = CountVector {
            counts: [0; CORE_ROOM],
        };
        let Some(event) = event else {
            return none;
        };
        match self.config().conflict {
            Conflict::Tag if event.is_access() => self.access_wait(n, event),
            Conflict::Tag | Conflict::Stall => none,
        }
    }

    // The wait of core n's next event, which is an access, under tag.
    fn access_wait(&self, n: u32, event: Event) -> CountVector
        requires tag { self.now.machine.config.conflict ≡ Tag }
        requires core { n < length self.now.machine.state.now.cores }
        requires access { is_access event ≡ true }
        requires fits { FitsCore self.now.machine.program.sizes n event }
        ensures { result.counts ≡ wait_vector self.now.machine.config.mode
            (self.now.machine.state.now.trace ++ event ∷ []) (length self.now.machine.state.now.trace) }
    {
        self.keeps();
        let config = self.config();
        let covered = self.covered(n, event);
        covered.greater(&self.tally(n).waits().by_order(config.mode, n))
    }

    // How many persists of each core the tags make core n's next event wait for, which is an access.
    fn covered(&self, n: u32, event: Event) -> CountVector
        requires core { n < length self.now.machine.state.now.cores }
        requires access { is_access event ≡ true }
        requires fits { FitsCore self.now.machine.program.sizes n event }
        ensures { IsCovered self.now event result.counts }
    {
        self.keeps();
        let strand = self.tally(n).strand();
        self.tags()
            .covers(n, strand, event.word(), event.is_store())
    }

    // Whether an access of core n waits: of some core more persists are covered than are all durable.
    fn must_wait(&self, n: u32, event: Event) -> bool
        requires core { n < length self.now.machine.state.now.cores }
        requires stall { self.now.machine.config.conflict ≡ Stall }
        requires access { is_access event ≡ true }
        requires marked { EventFits event }
        requires fits { FitsCore self.now.machine.program.sizes n event }
        ensures { result ≡ must_wait self.now.machine.config.mode
            (self.now.machine.state.now.trace ++ event ∷ []) (set_of self.now.machine.state.durable)
            (length self.now.machine.state.now.trace) }
    {
        self.keeps();
        let covered = self.covered(n, event);
        self.some_missing(&covered.counts)
    }

    // Whether core n's queue has no room for an item more.
    fn queue_full(&self, n: u32) -> bool
        requires { n < length self.now.machine.state.now.cores }
        ensures { result ≡ (queued self.now.machine.config self.now.machine.state n
            == self.now.machine.config.queue) }
    {
        self.queue(n).is_full()
    }

    // Whether an instruction of core n that makes this event is done, or why it waits.
    pub(crate) fn made_turn(&self, n: u32, event: Option<Event>) -> Turn
        requires core { n < length self.now.machine.state.now.cores }
        requires marked { IfSome event EventFits }
        requires fits { IfSome event (FitsCore self.now.machine.program.sizes n) }
        ensures { result ≡ made_turn self.now.machine.config self.now.machine.state n event }
    {
        let Some(event) = event else {
            return Turn::Done;
        };
        if event.is_join() && self.join_waits(n) {
            return Turn::Bubble(Cause::Join);
        }
        if self.access_waits(n, event) {
            return Turn::Bubble(Cause::Conflict);
        }
        let config = self.config();
        if is_item(config.mode, event) && self.queue_full(n) {
            return Turn::Bubble(Cause::Queue);
        }
        Turn::Done
    }
}

impl Parts {
    // Whether for some core more persists are asked for than its first ones that are all durable.
    fn some_missing(&self, counts: &[u32; CORE_ROOM]) -> bool
        requires { length self.now.tallies ≤ CORE_ROOM }
        ensures { result ≡ any_below (length self.now.tallies)
            (λ c. nat_lt (tally_at self.now c).first (slice_index counts.now c)) }
    {
        for c in 0..self.tallies.len() {
            let tally = &self.tallies[c];
            if tally.first() < counts[c] {
                return true;
            }
        }
        false
    }
}

// The wait of the next event, by looking back over the events and their waits.
ghost use Rattle.std.specs.Prelude.{◌≡◌, ◌<◌, ◌≤◌, max, ℕ, length, slice_index};
ghost use Rattle.strand_base.specs.declared.limits.TheConstants.{CORE_ROOM};
ghost use Rattle.strand_inputs.specs.declared.conflict.Conflict.TheVariants.{Tag};
ghost use Rattle.strand_events.specs.Trace.{core_of};
ghost use Rattle.strand_events.specs.Order.{stands_between, core_orders};
ghost use Rattle.strand_events.specs.Prefixes.{made_below};
ghost use Rattle.strand_rules.specs.Looking.{next_strand};
ghost use Rattle.strand_rules.specs.Next.{is_kind, is_next, made_next, hands_next, IsWaitOf, IsNextWait};

use crate::items::is_core_persist;
use crate::past::Past;
use strand_base::CORE_ROOM;
use strand_events::Event;
use strand_inputs::{Conflict, Mode};

/// Which events of a core order its accesses.
#[derive(Clone, Copy)]
pub(crate) enum Kind {
    /// A barrier or a join.
    Border,
    /// A barrier.
    Barrier,
    /// A begin of a strand.
    Begin,
    /// A join.
    Join,
}

// Whether the event is of this kind.
fn is_kind(kind: Kind, event: Event) -> bool
    ensures { result ≡ is_kind kind event }
{
    match kind {
        Kind::Border => event.is_barrier() || event.is_join(),
        Kind::Barrier => event.is_barrier(),
        Kind::Begin => event.is_new_strand(),
        Kind::Join => event.is_join(),
    }
}

impl<'a> Past<'a> {
    // Whether an event of the core of this kind came after event a.
    fn came_after(&self, kind: Kind, core: u32, a: usize) -> bool
        ensures { result ≡ stands_between (is_kind kind) core self.now.state.now.trace
            a (length self.now.state.now.trace) }
    {
        let mut found = false;
        for k in 0..self.events().len() {
            let event = self.events()[k];
            if a < k && (is_kind(kind, event) && event.core() == core) {
                found = true;
            }
        }
        found
    }

    // How many persists the core made among the events below an end.
    fn made_below(&self, core: u32, end: usize) -> u32
        requires { end ≤ length self.now.state.now.trace }
        ensures { result ≡ made_below self.now.state.now.trace core end }
    {
        let mut count: u32 = 0;
        for k in 0..end {
            if is_core_persist(self.events()[k], core) {
                count += 1;
            }
        }
        count
    }

    // Whether the core's own events order access a before its next one.
    fn orders(&self, core: u32, a: usize) -> bool
        ensures { result ≡ core_orders self.now.config.mode core self.now.state.now.trace
            a (length self.now.state.now.trace) }
    {
        match self.pipeline.mode() {
            Mode::Strict => true,
            Mode::Epoch => self.came_after(Kind::Border, core, a),
            Mode::Strand => {
                self.came_after(Kind::Join, core, a)
                    || (self.came_after(Kind::Barrier, core, a)
                        && !self.came_after(Kind::Begin, core, a))
            }
        }
    }

    // Whether access a comes directly before the next event.
    fn is_next(&self, event: Event, a: usize) -> bool
        requires { a < length self.now.state.now.trace }
        ensures { result ≡ is_next self.now.config.mode self.now.state.now.trace event a }
    {
        let earlier = self.events()[a];
        earlier.is_access()
            && event.is_access()
            && ((earlier.word() == event.word() && (earlier.is_store() || event.is_store()))
                || (earlier.core() == event.core() && self.orders(event.core(), a)))
    }

    // How many persists core c had made at or before event a, where a is of that core and apart
    // from the next event's strand.
    fn made_next(&self, event: Event, strand: u32, c: u32, a: usize) -> u32
        requires a { a < length self.now.state.now.trace }
        requires strand { strand ≡ next_strand self.now.config.mode self.now.state.now.trace
            (core_of event) }
        ensures { result ≡ made_next self.now.config.mode self.now.state.now.trace event c a }
    {
        if self.events()[a].core() == c && !self.is_in_next(event, strand, a) {
            self.made_below(c, a + 1)
        } else {
            0
        }
    }

    // The wait so far, and what access a hands on to the next event.
    fn wait_with(
        &self,
        event: Event,
        strand: u32,
        a: usize,
        wait: [u32; CORE_ROOM],
    ) -> [u32; CORE_ROOM]
        requires tag { self.now.config.conflict ≡ Tag }
        requires a { a < length self.now.state.now.trace }
        requires strand { strand ≡ next_strand self.now.config.mode self.now.state.now.trace
            (core_of event) }
        ensures { (c : ℕ) → c < CORE_ROOM → slice_index result c
            ≡ max (hands_next self.now.config.mode self.now.state.now.trace event c a)
            (slice_index wait c) }
    {
        if !self.is_next(event, a) {
            return wait;
        }
        let mut more = [0; CORE_ROOM];
        for c in 0..CORE_ROOM {
            let made = self.made_next(event, strand, c as u32, a);
            more[c] = self.wait_for(c, a).max(made).max(wait[c]);
        }
        more
    }

    // The wait of the next event, from those of the events so far. It goes over the trace once, and
    // over it again for each earlier access of the event's core or word.
    fn next_wait(&self, event: Event) -> [u32; CORE_ROOM]
        requires { self.now.config.conflict ≡ Tag }
        ensures { IsWaitOf self.now.config.mode self.now.state.now.trace event result }
    {
        let strand = self.next_strand(event.core());
        let mut wait = [0; CORE_ROOM];
        for a in 0..self.events().len() {
            let more = self.wait_with(event, strand, a, wait);
            wait = more;
        }
        wait
    }

    /// The wait of the next event under tag, if there is an event.
    pub(crate) fn wait_of(&self, event: Option<Event>) -> Option<[u32; CORE_ROOM]>
        ensures { IsNextWait self.now.config.conflict self.now.config.mode
            self.now.state.now.trace event result }
    {
        match self.conflict() {
            Conflict::Stall => None,
            Conflict::Tag => Some(self.next_wait(event?)),
        }
    }
}

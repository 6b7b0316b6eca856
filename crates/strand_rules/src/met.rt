// Whether the waits of accesses are met, by how many first persists of each core are all durable.
ghost use Rattle.std.specs.Prelude.{◌≡◌, ◌<◌, ◌&&◌, not, length};
ghost use Rattle.strand_inputs.specs.declared.conflict.Conflict.TheVariants.{Tag};
ghost use Rattle.strand_events.specs.Trace.{core_event_is, is_persist};
ghost use Rattle.strand_events.specs.Order.{set_of};
ghost use Rattle.strand_events.specs.Prefixes.{durable_prefix};
ghost use Rattle.strand_events.specs.Waits.{is_met};
ghost use Rattle.strand_rules.specs.Cycle.{some_unmet, join_unmet, persist_unmet};
ghost use Rattle.strand_rules.specs.Next.{ArePrefixes};

use crate::items::{is_core_access, is_core_persist};
use crate::past::Past;
use strand_base::CORE_ROOM;
use strand_inputs::Conflict;

impl<'a> Past<'a> {
    // Whether event q is a persist of the core that isn't durable.
    fn is_missing(&self, core: u32, q: usize) -> bool
        requires { q < length self.now.state.now.trace }
        ensures { result ≡ (core_event_is is_persist core self.now.state.now.trace q
            && not (set_of self.now.state.durable q)) }
    {
        is_core_persist(self.events()[q], core) && !self.durable()[q]
    }

    // How many of the core's first persists are all durable.
    fn durable_prefix(&self, core: u32) -> u32
        ensures { result ≡ durable_prefix self.now.state.now.trace
            (set_of self.now.state.durable) core }
    {
        let mut count: u32 = 0;
        for q in 0..self.events().len() {
            if self.is_missing(core, q) {
                return count;
            }
            if is_core_persist(self.events()[q], core) {
                count += 1;
            }
        }
        count
    }

    /// For each core, how many of its first persists are all durable.
    pub(crate) fn durable_prefixes(&self) -> [u32; CORE_ROOM]
        ensures { ArePrefixes self.now.state.now.trace (set_of self.now.state.durable) result }
    {
        let mut prefixes = [0; CORE_ROOM];
        for c in 0..CORE_ROOM {
            prefixes[c] = self.durable_prefix(c as u32);
        }
        prefixes
    }

    // Whether the wait of event x is met: no number of it is greater than that of its core.
    fn is_met(&self, prefixes: [u32; CORE_ROOM], x: usize) -> bool
        requires tag { self.now.config.conflict ≡ Tag }
        requires prefixes { ArePrefixes self.now.state.now.trace
            (set_of self.now.state.durable) prefixes }
        requires x { x < length self.now.state.now.trace }
        ensures { result ≡ is_met self.now.config.mode self.now.state.now.trace
            (set_of self.now.state.durable) x }
    {
        self.pipeline.keeps();
        let mut over = false;
        for c in 0..CORE_ROOM {
            if self.wait_for(c, x) > prefixes[c] {
                over = true;
            }
        }
        !over
    }

    /// Whether persist p waits in its buffer.
    pub(crate) fn persist_unmet(&self, prefixes: [u32; CORE_ROOM], p: usize) -> bool
        requires p { p < length self.now.state.now.trace }
        requires prefixes { ArePrefixes self.now.state.now.trace
            (set_of self.now.state.durable) prefixes }
        ensures { result ≡ persist_unmet self.now.config.conflict self.now.config.mode
            self.now.state.now.trace (set_of self.now.state.durable) p }
    {
        match self.conflict() {
            Conflict::Stall => false,
            Conflict::Tag => !self.is_met(prefixes, p),
        }
    }

    // Whether the wait of some access of core n isn't met.
    fn some_unmet(&self, n: u32) -> bool
        requires { self.now.config.conflict ≡ Tag }
        ensures { result ≡ some_unmet self.now.config.mode self.now.state.now.trace
            (set_of self.now.state.durable) n }
    {
        let prefixes = self.durable_prefixes();
        let mut found = false;
        for a in 0..self.events().len() {
            if is_core_access(self.events()[a], n) && !self.is_met(prefixes, a) {
                found = true;
            }
        }
        found
    }

    /// Whether core n's join waits for the wait of an access of it.
    pub(crate) fn join_unmet(&self, n: u32) -> bool
        ensures { result ≡ join_unmet self.now.config.conflict self.now.config.mode
            self.now.state.now.trace (set_of self.now.state.durable) n }
    {
        match self.conflict() {
            Conflict::Stall => false,
            Conflict::Tag => self.some_unmet(n),
        }
    }
}

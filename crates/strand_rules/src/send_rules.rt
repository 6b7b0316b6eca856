// What the rules of a send find in the past.
ghost use Rattle.std.specs.Prelude.{◌≡◌, ◌<◌, true, IfSome, length, slice_get};
ghost use Rattle.strand_events.specs.Order.{set_of};
ghost use Rattle.strand_rules.specs.Cycle.{is_lower, epoch_waits, word_waits, is_in_buffer, is_eligible, eligible};
ghost use Rattle.strand_rules.specs.Next.{ArePrefixes};

use crate::past::Past;
use strand_base::CORE_ROOM;

impl<'a> Past<'a> {
    // Whether q is a persist of a lower epoch of p's strand that isn't durable.
    fn is_lower(&self, q: usize, p: usize) -> bool
        requires q { q < length self.now.state.now.trace }
        requires p { p < length self.now.state.now.trace }
        ensures { result ≡ is_lower self.now.config.mode self.now.state.now.trace
            (set_of self.now.state.durable) q p }
    {
        self.events()[q].is_persist()
            && self.same_strand(q, p)
            && self.epoch_of(q) < self.epoch_of(p)
            && !self.durable()[q]
    }

    // Whether some persist of a lower epoch of p's strand isn't durable.
    fn epoch_waits(&self, p: usize) -> bool
        requires { p < length self.now.state.now.trace }
        ensures { result ≡ epoch_waits self.now.config self.now.state p }
    {
        let mut found = false;
        for q in 0..self.events().len() {
            if self.is_lower(q, p) {
                found = true;
            }
        }
        found
    }

    // Whether an earlier buffered persist of p's strand has the same word.
    fn word_waits(&self, p: usize) -> bool
        requires { p < length self.now.state.now.trace }
        ensures { result ≡ word_waits self.now.config self.now.state p }
    {
        let mut found = false;
        for q in 0..p {
            let same = self.buffered()[q]
                && self.same_strand(q, p)
                && self.events()[q].word() == self.events()[p].word();
            if same {
                found = true;
            }
        }
        found
    }

    // Whether event p is a buffered persist in buffer b of core n.
    fn is_in_buffer(&self, n: u32, b: u32, p: usize) -> bool
        requires { p < length self.now.state.now.trace }
        ensures { result ≡ is_in_buffer self.now.config self.now.state n b p }
    {
        self.buffered()[p]
            && self.events()[p].core() == n
            && self.pipeline.buffer_of(self.pipeline.strand_of(p)) == b
    }

    // Whether event p is an eligible persist of buffer b of core n, where each core has so many
    // first persists that are all durable.
    fn is_eligible(&self, prefixes: [u32; CORE_ROOM], n: u32, b: u32, p: usize) -> bool
        requires p { p < length self.now.state.now.trace }
        requires prefixes { ArePrefixes self.now.state.now.trace
            (set_of self.now.state.durable) prefixes }
        ensures { result ≡ is_eligible self.now.config self.now.state n b p }
    {
        self.is_in_buffer(n, b, p)
            && !self.epoch_waits(p)
            && !self.word_waits(p)
            && !self.persist_unmet(prefixes, p)
    }

    /// The eligible persist of buffer b of core n that has so many of them before it, by its event
    /// number.
    pub(crate) fn eligible_at(&self, n: u32, b: u32, place: u32) -> Option<usize>
        ensures eligible { result ≡ slice_get (eligible self.now.config self.now.state n b) place }
        ensures unsent { IfSome result (λ p. set_of self.now.state.buffered p ≡ true) }
    {
        let prefixes = self.durable_prefixes();
        let mut passed: u32 = 0;
        for p in 0..self.events().len() {
            if self.is_eligible(prefixes, n, b, p) {
                if passed == place {
                    return Some(p);
                }
                passed += 1;
            }
        }
        None
    }
}

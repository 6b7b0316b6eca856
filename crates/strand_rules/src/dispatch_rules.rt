// What the rules of a dispatch find in a pipeline.
ghost use Rattle.std.specs.Prelude.{◌≡◌, ◌<◌, ◌+◌, length, Some, IfSome};
ghost use Rattle.strand_events.specs.Trace.{strand_number};
ghost use Rattle.strand_events.specs.Order.{set_of};
ghost use Rattle.strand_rules.specs.Cycle.{front, ring_use, buffer_of, buffer_busy, item_turn};
ghost use Rattle.strand_rules.specs.Looking.{is_of_strand, is_busy};

use crate::items::is_core_persist;
use crate::pipeline::Pipeline;
use crate::turn::{Cause, Turn};

impl Pipeline {
    /// The first item of core n's queue, by its event number.
    pub(crate) fn front(&self, n: u32) -> Option<usize>
        requires { n < length self.now.state.now.cores }
        ensures front { result ≡ front self.now.config self.now.state n }
        ensures within { IfSome result (λ k. k < length self.now.state.now.trace) }
    {
        let place = self.gone(n);
        let mut passed: u32 = 0;
        for k in 0..self.events().len() {
            if self.is_item_at(n, k) {
                if passed == place {
                    return Some(k);
                }
                passed += 1;
            }
        }
        None
    }

    // Whether event p is a persist of core n in the strand of event k.
    fn is_of_strand(&self, n: u32, k: usize, p: usize) -> bool
        requires k { k < length self.now.state.now.trace }
        requires p { p < length self.now.state.now.trace }
        ensures { result ≡ is_of_strand self.now.config.mode self.now.state.now.trace n k p }
    {
        is_core_persist(self.events()[p], n) && self.same_strand(p, k)
    }

    // How many places of its ring the strand of item k uses, the first of core n's queue.
    fn ring_use(&self, n: u32, k: usize) -> usize
        requires within { k < length self.now.state.now.trace }
        requires front { front self.now.config self.now.state n ≡ Some k }
        ensures { result ≡ ring_use self.now.config self.now.state n k }
    {
        let mut open = false;
        let mut used = 0;
        for p in 0..k {
            if self.is_of_strand(n, k, p) {
                if !self.is_durable(p) {
                    open = true;
                }
                if open {
                    used += 1;
                }
            }
        }
        used
    }

    // Whether event p is a persist of core n in buffer b that isn't durable.
    fn is_busy(&self, n: u32, b: u32, p: usize) -> bool
        requires { p < length self.now.state.now.trace }
        ensures { result ≡ is_busy self.now.config.mode self.now.config.buffers
            self.now.state.now.trace (set_of self.now.state.durable) n b p }
    {
        is_core_persist(self.events()[p], n)
            && self.buffer_of(self.strand_of(p)) == b
            && !self.is_durable(p)
    }

    // Whether buffer b of core n isn't empty, where event k is the first item of the core's queue.
    fn buffer_busy(&self, n: u32, b: u32, k: usize) -> bool
        requires within { k < length self.now.state.now.trace }
        requires front { front self.now.config self.now.state n ≡ Some k }
        ensures { result ≡ buffer_busy self.now.config self.now.state n b }
    {
        let mut found = false;
        for p in 0..k {
            if self.is_busy(n, b, p) {
                found = true;
            }
        }
        found
    }

    // Whether the buffer of the strand that item k begins isn't empty, the first of core n's queue.
    fn next_busy(&self, n: u32, k: usize) -> bool
        requires within { k < length self.now.state.now.trace }
        requires front { front self.now.config self.now.state n ≡ Some k }
        ensures { result ≡ buffer_busy self.now.config self.now.state n (buffer_of self.now.config
            (strand_number self.now.config.mode self.now.state.now.trace k + 1)) }
    {
        self.keeps();
        let next = self.buffer_of(self.strand_of(k) + 1);
        self.buffer_busy(n, next, k)
    }

    /// Whether item k of core n, the first of its queue, is dispatched, or why it waits.
    pub(crate) fn item_turn(&self, n: u32, k: usize) -> Turn
        requires within { k < length self.now.state.now.trace }
        requires front { front self.now.config self.now.state n ≡ Some k }
        ensures { result ≡ item_turn self.now.config self.now.state n (Some k) }
    {
        let config = self.config;
        let event = self.events()[k];
        if event.is_persist() && self.ring_use(n, k) == config.ring as usize {
            return Turn::Bubble(Cause::NoRoom);
        }
        if event.is_new_strand() && self.next_busy(n, k) {
            return Turn::Bubble(Cause::NotEmpty);
        }
        Turn::Done
    }
}

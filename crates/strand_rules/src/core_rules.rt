// What the rules of a core's instruction find in the past.
ghost use Rattle.std.specs.Prelude.{◌≡◌, ◌<◌, ◌≤◌, length};
ghost use Rattle.strand_events.specs.Order.{set_of};
ghost use Rattle.strand_rules.specs.Cycle.{items, queued, some_wait, made_turn};

use crate::items::{is_core_persist, is_item};
use crate::past::Past;
use crate::turn::{Cause, Turn};
use strand_events::Event;

impl<'a> Past<'a> {
    // How many items core n made.
    fn item_count(&self, n: u32) -> u32
        ensures { result ≡ length (items self.now.config.mode self.now.state.now.trace n) }
    {
        let mut count: u32 = 0;
        for k in 0..self.events().len() {
            if self.pipeline.is_item_at(n, k) {
                count += 1;
            }
        }
        count
    }

    // How many items are in the queue of core n.
    fn queued(&self, n: u32) -> u32
        requires { n < length self.now.state.now.cores }
        ensures { result ≡ queued self.now.config self.now.state n }
    {
        self.item_count(n).saturating_sub(self.pipeline.gone(n))
    }

    // Whether some persist of core n among the events below an end isn't durable.
    fn some_wait(&self, n: u32, end: usize) -> bool
        requires { end ≤ length self.now.state.now.trace }
        ensures { result ≡ some_wait self.now.state.now.trace (set_of self.now.state.durable) n
            end }
    {
        let mut found = false;
        for p in 0..end {
            if is_core_persist(self.events()[p], n) && !self.durable()[p] {
                found = true;
            }
        }
        found
    }

    /// Whether an instruction of core n that makes this event is done, or why it waits.
    pub(crate) fn made_turn(&self, n: u32, event: Option<Event>) -> Turn
        requires { n < length self.now.state.now.cores }
        ensures { result ≡ made_turn self.now.config self.now.state n event }
    {
        let Some(event) = event else {
            return Turn::Done;
        };
        let config = self.config();
        let queued = self.queued(n);
        if event.is_join()
            && (queued != 0 || self.some_wait(n, self.events().len()) || self.join_unmet(n))
        {
            return Turn::Bubble(Cause::Join);
        }
        if self.access_waits(event) {
            return Turn::Bubble(Cause::Conflict);
        }
        if is_item(config.mode, event) && queued == config.queue {
            return Turn::Bubble(Cause::Queue);
        }
        Turn::Done
    }
}

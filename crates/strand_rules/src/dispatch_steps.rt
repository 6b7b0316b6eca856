// The steps of a core's queue.
ghost use Rattle.std.specs.Prelude.{◌≡◌, ◌<◌, ◌+◌, ◌-◌, ◌^◌, IfSome, Some, None, if◌then◌else◌, length, slice_index, slice_set, vec_capacity};
ghost use Rattle.strand_events.specs.Trace.{event_is, is_persist};
ghost use Rattle.strand_inputs.specs.declared.step.Step.TheVariants.{Dispatch};
ghost use Rattle.strand_rules.specs.Cycle.{turn, front, item_after};
ghost use Rattle.strand_rules.specs.Looking.{marked_at};
ghost use Rattle.strand_rules.specs.Machine.{FrontIs, stepped, made_to};
ghost use Rattle.strand_rules.specs.Pipeline.{IsReachedWithSome};

use crate::pipeline::Pipeline;
use crate::turn::{Cause, Turn};

impl Pipeline {
    // The item, if it is a persist.
    fn persist_in(&self, k: usize) -> Option<usize>
        requires { k < length self.now.state.now.trace }
        ensures { result ≡ (if event_is is_persist self.now.state.now.trace k then Some k else None) }
    {
        if self.trace.events()[k].is_persist() {
            Some(k)
        } else {
            None
        }
    }

    /// Core n dispatches the first item of its queue: a step that is done, in constant time. The item is
    /// this persist, by its event number, or none.
    pub fn dispatch(&mut self, n: u32, persist: Option<usize>)
        requires room { self.old.made < self.old.steps }
        requires core { n < length self.old.state.now.cores }
        requires front { FrontIs self.old.config self.old.state n persist }
        requires reached { IsReachedWithSome self.old.config self.old.program
            (item_after self.old.state n (front self.old.config self.old.state n)) }
        ensures { self.new ≡ made_to self.old (item_after self.old.state n (front self.old.config self.old.state n)) }
    {
        mark_item(&mut self.dispatched, &mut self.buffered, n, persist);
        self.made += 1;
    }

    // Core n dispatches the first item of its queue.
    pub(crate) fn step_dispatch(&mut self, n: u32) -> Turn
        requires room { self.old.made < self.old.steps }
        requires core { n < length self.old.state.now.cores }
        ensures turn { result ≡ turn self.old.config self.old.program self.old.state (Dispatch n) }
        ensures machine { self.new ≡ stepped self.old (Dispatch n) }
    {
        self.keeps();
        let Some(k) = self.front(n) else {
            return self.bubble(Cause::NoItem);
        };
        let turn = self.item_turn(n, k);
        if let Turn::Done = turn {
            let persist = self.persist_in(k);
            self.dispatch(n, persist);
        } else {
            self.made += 1;
        }
        turn
    }
}

// One more item of core n is dispatched, and buffered where it is a persist.
fn mark_item(dispatched: &mut Vec<u32>, buffered: &mut Vec<bool>, n: u32, persist: Option<usize>)
    requires core { n < length dispatched.old.items }
    requires few { slice_index dispatched.old.items n < 2 ^ 32 - 1 }
    requires event { IfSome persist (λ k. k < length buffered.old.items) }
    ensures dispatched { dispatched.new.items ≡ slice_set dispatched.old.items n (slice_index dispatched.old.items n + 1) }
    ensures buffered { buffered.new.items ≡ marked_at buffered.old.items persist }
    ensures room { vec_capacity buffered.new ≡ vec_capacity buffered.old }
{
    dispatched[n as usize] += 1;
    if let Some(k) = persist {
        buffered[k] = true;
    }
}

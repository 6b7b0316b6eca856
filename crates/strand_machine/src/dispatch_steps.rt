// The steps of the queues.
ghost use Rattle.std.specs.Prelude.{◌≡◌, ◌<◌, Some, if◌then◌else◌, length, slice_get};
ghost use Rattle.strand_inputs.specs.declared.step.Step.TheVariants.{Dispatch};
ghost use Rattle.strand_rules.specs.Cycle.{front, item_after, turn};
ghost use Rattle.strand_rules.specs.declared.turn.Turn.TheVariants.{Bubble, Done};
ghost use Rattle.strand_rules.specs.Machine.{FrontIs, made_to, stepped};
ghost use Rattle.strand_machine.specs.Machine.{PartsStand};
ghost use Rattle.strand_machine.specs.Stand.{queue_at};

use crate::Machine;
use strand_queue::Item;
use strand_rules::{Cause, Turn};

impl Machine {
    // Whether this item, the first of core n's queue, is dispatched, or why it waits.
    fn item_turn(&self, n: u32, item: Item) -> Turn
        requires core { n < length self.now.machine.state.now.cores }
        requires front { slice_get (queue_at self.now.parts n).items 0 ≡ Some item }
        ensures { result ≡ turn self.now.machine.config self.now.machine.program
            self.now.machine.state (Dispatch n) }
    {
        self.keeps();
        let buffers = self.buffers(n);
        match item {
            Item::Persist { .. } => done_or(buffers.room(), Cause::NoRoom),
            Item::Barrier => Turn::Done,
            Item::NewStrand => done_or(buffers.can_begin(), Cause::NotEmpty),
        }
    }

    // The event number of this item, the first of core n's queue, where it is a persist.
    fn persist_of(&self, n: u32, item: Item) -> Option<usize>
        requires core { n < length self.now.machine.state.now.cores }
        requires front { slice_get (queue_at self.now.parts n).items 0 ≡ Some item }
        ensures { FrontIs self.now.machine.config self.now.machine.state n result }
    {
        self.keeps();
        match item {
            Item::Persist { number, .. } => Some(self.trace().persist_at(number)),
            Item::Barrier | Item::NewStrand => None,
        }
    }

    // Core n dispatches this item, the first of its queue.
    fn dispatch(&mut self, n: u32, item: Item)
        requires room { self.old.machine.made < self.old.machine.steps }
        requires core { n < length self.old.machine.state.now.cores }
        requires front { slice_get (queue_at self.old.parts n).items 0 ≡ Some item }
        requires done { turn self.old.machine.config self.old.machine.program
            self.old.machine.state (Dispatch n) ≡ Done }
        ensures machine { self.new.machine ≡ made_to self.old.machine
            (item_after self.old.machine.state n
            (front self.old.machine.config self.old.machine.state n)) }
        ensures parts { PartsStand self.new }
    {
        self.pipeline.keeps();
        let persist = self.persist_of(n, item);
        self.pipeline.dispatch(n, persist);
        self.parts.dispatch(n, item);
    }

    // Core n dispatches the first item of its queue.
    pub(crate) fn step_dispatch(&mut self, n: u32) -> Turn
        requires room { self.old.machine.made < self.old.machine.steps }
        requires core { n < length self.old.machine.state.now.cores }
        ensures turn { result ≡ turn self.old.machine.config self.old.machine.program
            self.old.machine.state (Dispatch n) }
        ensures machine { self.new.machine ≡ stepped self.old.machine (Dispatch n) }
        ensures parts { PartsStand self.new }
    {
        let Some(item) = self.queue(n).front() else {
            return self.bubble(Cause::NoItem);
        };
        let turn = self.item_turn(n, item);
        match turn {
            Turn::Done => self.dispatch(n, item),
            Turn::Bubble(cause) => {
                self.bubble(cause);
            }
            Turn::Fault { .. } => {}
        }
        turn
    }
}

// A turn that is done, or the bubble of this cause.
fn done_or(done: bool, cause: Cause) -> Turn
    ensures { result ≡ (if done then Done else Bubble cause) }
{
    if done {
        Turn::Done
    } else {
        Turn::Bubble(cause)
    }
}

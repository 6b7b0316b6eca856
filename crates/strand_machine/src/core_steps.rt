// The steps of the cores.
ghost use Rattle.std.specs.Prelude.{◌≡◌, ◌<◌, ◌-◌, IfSome, Some, length, slice_get};
ghost use Rattle.strand_events.specs.Fits.{EventFits};
ghost use Rattle.strand_exec.specs.Plan.{IsPlaced, asked};
ghost use Rattle.strand_inputs.specs.declared.step.Step.TheVariants.{Core};
ghost use Rattle.strand_rules.specs.Visible.{event_of};
ghost use Rattle.strand_rules.specs.Cycle.{core_after, made_turn, turn};
ghost use Rattle.strand_rules.specs.declared.turn.Turn.TheVariants.{Done};
ghost use Rattle.strand_rules.specs.Machine.{NextEffect, made_to, stepped};
ghost use Rattle.strand_machine.specs.Machine.{FitsCore, PartsStand};
ghost use Rattle.strand_machine.specs.Stand.{newest_item};

use crate::Machine;
use strand_events::{Event, Trace};
use strand_exec::{Effect, Plan, asked};
use strand_inputs::Mode;
use strand_queue::Item;
use strand_rules::{Cause, Turn, is_item, made_event};

impl Machine {
    // The event that core n's instruction makes.
    fn next_event(&self, n: u32, plan: Plan) -> Option<Event>
        requires core { n < length self.now.machine.state.now.cores }
        requires placed { IsPlaced self.now.machine.program.sizes plan }
        ensures event { result ≡ event_of n self.now.machine.state.now.memory plan }
        ensures fits { IfSome result EventFits }
        ensures core { IfSome result (FitsCore self.now.machine.program.sizes n) }
    {
        self.pipeline.keeps();
        made_event(n, plan, self.parts.overwritten(plan))
    }

    // Core n, which runs, retires its instruction.
    fn retire(&mut self, n: u32, effect: Effect, plan: Plan, event: Option<Event>)
        requires room { self.old.machine.made < self.old.machine.steps }
        requires core { n < length self.old.machine.state.now.cores }
        requires runs { NextEffect self.old.machine n effect }
        requires plan { plan ≡ asked effect }
        requires placed { IsPlaced self.old.machine.program.sizes plan }
        requires event { event ≡ event_of n self.old.machine.state.now.memory plan }
        requires fits { IfSome event EventFits }
        requires own { IfSome event (FitsCore self.old.machine.program.sizes n) }
        requires done { made_turn self.old.machine.config self.old.machine.state n event ≡ Done }
        ensures machine { self.new.machine ≡ made_to self.old.machine
            (core_after self.old.machine.program self.old.machine.state n event) }
        ensures parts { PartsStand self.new }
    {
        self.pipeline.keeps();
        // It tells that no more items wait than the depth lets.
        let _full = self.parts.queue(n).is_full();
        let wait = self.next_wait(n, event);
        let loaded = self.parts.access(n, plan);
        self.pipeline.retire(n, effect, event, loaded);
        let Some(event) = event else {
            return;
        };
        let config = self.pipeline.config();
        let item = newest_item(self.pipeline.trace(), config.mode, event);
        self.parts.enqueue(n, item);
        self.parts.note_access(n, event, &wait);
        self.parts.note_wait(n, config, event, &wait);
    }

    // Core n retires its next instruction, unless it has ended or waits.
    pub(crate) fn step_core(&mut self, n: u32) -> Turn
        requires room { self.old.machine.made < self.old.machine.steps }
        requires core { n < length self.old.machine.state.now.cores }
        ensures turn { result ≡ turn self.old.machine.config self.old.machine.program
            self.old.machine.state (Core n) }
        ensures machine { self.new.machine ≡ stepped self.old.machine (Core n) }
        ensures parts { PartsStand self.new }
    {
        let Some(effect) = self.pipeline.next_effect(n) else {
            return self.bubble(Cause::Ended);
        };
        let plan = asked(effect, self.pipeline.sizes());
        let event = self.next_event(n, plan);
        let turn = self.made_turn(n, event);
        match turn {
            Turn::Done => self.retire(n, effect, plan, event),
            Turn::Bubble(cause) => {
                self.bubble(cause);
            }
            Turn::Fault { .. } => {}
        }
        turn
    }
}

// The event at the end of the trace as a queue takes it, if it does.
fn newest_item(trace: &Trace, mode: Mode, event: Event) -> Option<Item>
    requires { slice_get trace.now.events (length trace.now.events - 1) ≡ Some event }
    ensures { result ≡ newest_item mode trace.now.events }
{
    if !is_item(mode, event) {
        return None;
    }
    let k = trace.events().len() - 1;
    let item = match event {
        Event::Store {
            word,
            value,
            persist: true,
            ..
        } => Item::Persist {
            number: trace.persists() - 1,
            word,
            value,
            epoch: trace.epoch_of(mode, k),
        },
        Event::Barrier { .. } => Item::Barrier,
        _ => Item::NewStrand,
    };
    Some(item)
}

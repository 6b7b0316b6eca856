// The steps of the cores over a flat memory.
ghost use Rattle.std.specs.Prelude.{◌≡◌, ◌<◌, IfSome, length, vec_len, vec_capacity};
ghost use Rattle.strand_events.specs.Fits.{EventFits};
ghost use Rattle.strand_exec.specs.Plan.{asked, IsPlaced};
ghost use Rattle.strand_inputs.specs.declared.step.Step.TheVariants.{Core};
ghost use Rattle.strand_rules.specs.Visible.{event_of};
ghost use Rattle.strand_rules.specs.Cycle.{turn, core_after, IsReached};
ghost use Rattle.strand_rules.specs.Machine.{stepped, made_to, NextEffect};
ghost use Rattle.strand_rules.specs.Next.{IsNextWait, waited};

use crate::PlainMachine;
use crate::acting::{act, made_event, overwritten};
use crate::past::Past;
use crate::turn::{Cause, Turn};
use strand_base::CORE_ROOM;
use strand_events::Event;
use strand_exec::{Effect, Plan, asked};

impl PlainMachine {
    // The event that an instruction of core n with this plan makes, if any.
    fn next_event(&self, n: u32, plan: Plan) -> Option<Event>
        requires core { n < length self.now.state.now.cores }
        requires placed { IsPlaced self.now.program.sizes plan }
        ensures event { result ≡ event_of n self.now.state.now.memory plan }
        ensures fits { IfSome result EventFits }
    {
        self.pipeline.keeps();
        made_event(n, plan, overwritten(&self.memory, plan))
    }

    // The wait of the next event under tag, if there is an event.
    fn next_wait(&self, event: Option<Event>) -> Option<[u32; CORE_ROOM]>
        ensures { IsNextWait self.now.config.conflict self.now.config.mode
            self.now.state.now.trace event result }
    {
        Past::new(&self.pipeline, &self.waits).wait_of(event)
    }

    // Core n, which runs, retires its instruction, which makes this event.
    fn retire(&mut self, n: u32, effect: Effect, plan: Plan, event: Option<Event>)
        requires room { self.old.made < self.old.steps }
        requires runs { NextEffect self.old n effect }
        requires plan { plan ≡ asked effect }
        requires placed { IsPlaced self.old.program.sizes plan }
        requires event { event ≡ event_of n self.old.state.now.memory plan }
        requires fits { IfSome event EventFits }
        requires reached { IsReached self.old.config self.old.program
            (core_after self.old.program self.old.state n event) }
        ensures { self.new ≡ made_to self.old
            (core_after self.old.program self.old.state n event) }
    {
        self.pipeline.keeps();
        let wait = self.next_wait(event);
        let loaded = act(&mut self.memory, plan);
        self.pipeline.retire(n, effect, event, loaded);
        keep_wait(&mut self.waits, wait);
    }

    // Core n retires its next instruction, unless it has ended or waits.
    pub(crate) fn step_core(&mut self, n: u32) -> Turn
        requires room { self.old.made < self.old.steps }
        requires core { n < length self.old.state.now.cores }
        ensures turn { result ≡ turn self.old.config self.old.program self.old.state (Core n) }
        ensures machine { self.new ≡ stepped self.old (Core n) }
    {
        let Some(effect) = self.pipeline.next_effect(n) else {
            return self.pipeline.bubble(Cause::Ended);
        };
        let plan = asked(effect, self.pipeline.sizes());
        let event = self.next_event(n, plan);
        let turn = Past::new(&self.pipeline, &self.waits).made_turn(n, event);
        match turn {
            Turn::Done => self.retire(n, effect, plan, event),
            Turn::Bubble(cause) => {
                self.pipeline.bubble(cause);
            }
            Turn::Fault { .. } => {}
        }
        turn
    }
}

// Keeps the wait of an event, if there is one.
fn keep_wait(waits: &mut Vec<[u32; CORE_ROOM]>, wait: Option<[u32; CORE_ROOM]>)
    requires { IfSome wait (λ w. vec_len waits.old < vec_capacity waits.old) }
    ensures waits { waits.new.items ≡ waited waits.old.items wait }
    ensures room { vec_capacity waits.new ≡ vec_capacity waits.old }
{
    if let Some(wait) = wait {
        waits.push_reserved(wait);
    }
}

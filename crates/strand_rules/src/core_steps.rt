// The instructions of the cores: what they do, why they wait, and what they leave.
ghost use Rattle.std.specs.Prelude.{◌≡◌, ◌<◌, IfSome};
ghost use Rattle.std.specs.Option.{option_map};
ghost use Rattle.strand_events.specs.Fits.{EventFits};
ghost use Rattle.strand_exec.specs.Plan.{asked};
ghost use Rattle.strand_rules.specs.Visible.{next_plan};
ghost use Rattle.strand_rules.specs.Machine.{made_to, NextEffect};
ghost use Rattle.strand_rules.specs.Pipeline.{IsReachedWithSome, retired_to};

use crate::acting::note;
use crate::pipeline::Pipeline;
use strand_events::Event;
use strand_exec::{Effect, Life, apply};

impl Pipeline {
    /// What the next instruction of core n does; none where the core has ended or isn't there.
    #[tactic(auto, unfolding(strand_exec::specs::Plan::plan_of))]
    pub fn next_effect(&self, n: u32) -> Option<Effect>
        ensures plan { option_map asked result ≡ next_plan self.now.program self.now.state.now n }
        ensures runs { IfSome result (NextEffect self.now n) }
    {
        let core = self.cores.get(n as usize)?;
        match core.life {
            Life::Running => Some(self.code.effect(core, self.sizes)),
            Life::Halted | Life::Trapped(_) => None,
        }
    }

    /// Core n, which runs, retires its instruction: a step that is done. This is the event that the
    /// instruction makes, and `loaded` the word that its load finds, which isn't used else. It takes constant
    /// time, and it doesn't ask whether the rules let the step be done.
    pub fn retire(&mut self, n: u32, effect: Effect, event: Option<Event>, loaded: u64)
        requires room { self.old.made < self.old.steps }
        requires runs { NextEffect self.old n effect }
        requires fits { IfSome event EventFits }
        requires reached { IsReachedWithSome self.old.config self.old.program
            (retired_to self.old.state n effect event loaded) }
        ensures { self.new ≡ made_to self.old (retired_to self.old.state n effect event loaded) }
    {
        apply(&mut self.cores[n as usize], effect, loaded);
        note(
            &mut self.trace,
            &mut self.buffered,
            &mut self.durable,
            &mut self.persisted,
            event,
        );
        self.retired.push_reserved(n);
        self.made += 1;
    }
}

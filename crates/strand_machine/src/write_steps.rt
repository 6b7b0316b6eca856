// The steps of the controller.
ghost use Rattle.std.specs.Prelude.{◌≡◌, ◌<◌, ◌≤◌};
ghost use Rattle.strand_inputs.specs.declared.step.Step.TheVariants.{Write};
ghost use Rattle.strand_rules.specs.Machine.{StepLeaves};
ghost use Rattle.strand_machine.specs.Machine.{PartsStand};
ghost use Rattle.strand_modules.specs.Seen.{bank_seen};

use crate::Machine;
use strand_control::{Request, WriteTurn};
use strand_modules::ModuleBank;
use strand_rules::{Cause, Turn};

impl Machine {
    // The bank stores the request at place j, unless an older one has its word.
    pub(crate) fn step_write(&mut self, j: u32, bank: &mut ModuleBank) -> Turn
        requires room { self.old.machine.made < self.old.machine.steps }
        requires bank { self.old.machine.program.sizes.persistent ≤ (bank_seen holds bank.old).size }
        ensures step { StepLeaves self.old.machine self.new.machine (bank_seen holds bank.old) (bank_seen holds bank.new) (Write j) result }
        ensures parts { PartsStand self.new }
    {
        self.pipeline.keeps();
        match self.parts.write(j, bank) {
            WriteTurn::Written(r) => {
                let p = self.pipeline.trace().persist_at(r.number);
                self.pipeline.write(j, p, r.number);
                self.parts.release(r, self.pipeline.durable());
                Turn::Done
            }
            WriteTurn::NoEntry => self.pipeline.bubble(Cause::NoEntry),
            WriteTurn::OlderWaits => self.pipeline.bubble(Cause::OlderWaits),
            WriteTurn::Fault { module } => Turn::Fault { module },
        }
    }
}

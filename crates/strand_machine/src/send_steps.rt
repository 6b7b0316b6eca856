// The steps of the strand buffers.
ghost use Rattle.std.specs.Prelude.{◌≡◌, ◌<◌, Some, length};
ghost use Rattle.strand_inputs.specs.declared.step.Step.TheVariants.{Send};
ghost use Rattle.strand_rules.specs.Cycle.{send_after, turn};
ghost use Rattle.strand_rules.specs.Machine.{made_to, stepped};
ghost use Rattle.strand_machine.specs.Machine.{PartsStand, SlotIs};
ghost use Rattle.strand_machine.specs.Stand.{buffers_at, prefixes};
ghost use Rattle.strand_buffer.specs.Buffers.{eligible_slot};

use crate::Machine;
use strand_buffer::Slot;
use strand_control::Request;
use strand_rules::{Cause, Turn};

impl Machine {
    // The eligible persist at place j of buffer b of core n, as its buffers hand it out.
    fn eligible(&self, n: u32, b: u32, j: u32) -> Option<Slot>
        requires core { n < length self.now.machine.state.now.cores }
        requires buffer { b < self.now.machine.config.buffers }
        ensures { result ≡ eligible_slot (buffers_at self.now.parts n) b j (prefixes self.now.parts) }
    {
        let durable = self.parts.prefixes();
        self.parts.buffers(n).eligible(b, j, &durable)
    }

    // The persist of this slot, by its event number: the eligible one at place j of buffer b of core n.
    fn persist_in(&self, n: u32, b: u32, j: u32, slot: Slot) -> usize
        requires core { n < length self.now.machine.state.now.cores }
        requires buffer { b < self.now.machine.config.buffers }
        requires slot { eligible_slot (buffers_at self.now.parts n) b j (prefixes self.now.parts) ≡ Some slot }
        ensures { SlotIs self.now n b j slot result }
    {
        self.keeps();
        self.trace().persist_at(slot.number)
    }

    // Buffer b of core n sends persist p, which its buffers hand out as this slot.
    fn send(&mut self, n: u32, b: u32, j: u32, slot: Slot, p: usize)
        requires room { self.old.machine.made < self.old.machine.steps }
        requires slot { SlotIs self.old n b j slot p }
        requires flight { length self.old.machine.state.flight < self.old.machine.config.flight }
        ensures machine { self.new.machine ≡ made_to self.old.machine
            (send_after self.old.machine.state (Some p)) }
        ensures parts { PartsStand self.new }
    {
        self.pipeline.keeps();
        self.pipeline.send(p);
        self.parts.send(Request {
            core: n,
            buffer: b,
            number: slot.number,
            word: slot.word,
            value: slot.value,
        });
    }

    // Buffer b of core n sends its eligible persist at place j.
    pub(crate) fn step_send(&mut self, n: u32, b: u32, j: u32) -> Turn
        requires room { self.old.machine.made < self.old.machine.steps }
        requires core { n < length self.old.machine.state.now.cores }
        requires buffer { b < self.old.machine.config.buffers }
        ensures turn { result ≡ turn self.old.machine.config self.old.machine.program
            self.old.machine.state (Send n b j) }
        ensures machine { self.new.machine ≡ stepped self.old.machine (Send n b j) }
        ensures parts { PartsStand self.new }
    {
        self.keeps();
        let Some(slot) = self.eligible(n, b, j) else {
            return self.bubble(Cause::NoEntry);
        };
        if !self.control().room() {
            return self.bubble(Cause::FlightFull);
        }
        let p = self.persist_in(n, b, j, slot);
        self.send(n, b, j, slot, p);
        Turn::Done
    }
}

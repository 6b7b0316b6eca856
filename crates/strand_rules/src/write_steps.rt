// The steps of the buffers and of the controller.
ghost use Rattle.std.specs.Prelude.{◌≡◌, ◌<◌, ◌≤◌, ◌==◌, true, false, Some, length, slice_get};
ghost use Rattle.strand_events.specs.Trace.{event_is, is_persist, persist_number};
ghost use Rattle.strand_events.specs.Order.{set_of};
ghost use Rattle.strand_inputs.specs.declared.step.Step.TheVariants.{Send, Write};
ghost use Rattle.strand_modules.specs.Seen.{bank_seen};
ghost use Rattle.strand_rules.specs.Cycle.{turn, send_after, older_waits, word_store_of, write_after};
ghost use Rattle.strand_rules.specs.Machine.{stepped, made_to, StepLeaves};
ghost use Rattle.strand_rules.specs.Next.{AreKeptWaits};
ghost use Rattle.strand_rules.specs.Pipeline.{IsReachedWithSome};

use crate::past::Past;
use crate::pipeline::Pipeline;
use crate::turn::{Cause, Turn};
use crate::write_rules::{persist_number, request};
use strand_base::CORE_ROOM;
use strand_modules::{AtModule, ModuleBank};

impl Pipeline {
    // Whether as many requests are in flight as can be.
    fn flight_full(&self) -> bool
        ensures full { result ≡ (length self.now.state.flight == self.now.config.flight) }
        ensures room { result ≡ false → length self.now.state.flight < self.now.config.flight }
    {
        let config = self.config;
        self.flight.len() == config.flight as usize
    }

    /// Persist p, by its event number, is sent, which is buffered: a step that is done, in constant time.
    pub fn send(&mut self, p: usize)
        requires room { self.old.made < self.old.steps }
        requires flight { length self.old.state.flight < self.old.config.flight }
        requires buffered { set_of self.old.state.buffered p ≡ true }
        requires reached { IsReachedWithSome self.old.config self.old.program
            (send_after self.old.state (Some p)) }
        ensures { self.new ≡ made_to self.old (send_after self.old.state (Some p)) }
    {
        self.buffered[p] = false;
        self.flight.push_reserved(p as u32);
        self.made += 1;
    }

    // Buffer b of core n sends its eligible persist at place j. These are the waits of the events.
    pub(crate) fn step_send(&mut self, n: u32, b: u32, j: u32, waits: &[[u32; CORE_ROOM]]) -> Turn
        requires room { self.old.made < self.old.steps }
        requires waits { AreKeptWaits self.old.config.conflict self.old.config.mode
            self.old.state.now.trace waits.now }
        ensures turn { result ≡ turn self.old.config self.old.program self.old.state (Send n b j) }
        ensures machine { self.new ≡ stepped self.old (Send n b j) }
    {
        self.keeps();
        let found = Past::new(self, waits).eligible_at(n, b, j);
        let Some(p) = found else {
            return self.bubble(Cause::NoEntry);
        };
        if self.flight_full() {
            return self.bubble(Cause::FlightFull);
        }
        self.send(p);
        Turn::Done
    }

    // The number of persist p among the persists.
    fn persist_number(&self, p: usize) -> u32
        requires { event_is is_persist self.now.state.now.trace p ≡ true }
        ensures { result ≡ persist_number self.now.state.now.trace p }
    {
        persist_number(self.trace.events(), p) as u32
    }

    // What the request of persist p stores, and where.
    fn request(&self, p: usize) -> (u64, u64)
        requires { event_is is_persist self.now.state.now.trace p ≡ true }
        ensures place { result.0 ≡ (word_store_of self.now.state p).place }
        ensures value { result.1 ≡ (word_store_of self.now.state p).value }
        ensures inside { result.0 < self.now.program.sizes.persistent }
    {
        request(self.trace.events(), p)
    }

    /// Event p is durable, the persist of the request at place j, which has this number among the
    /// persists: a step that is done. It goes over the requests in flight once.
    pub fn write(&mut self, j: u32, p: usize, number: u32)
        requires room { self.old.made < self.old.steps }
        requires request { slice_get self.old.state.flight j ≡ Some p }
        requires persist { event_is is_persist self.old.state.now.trace p ≡ true }
        requires number { number ≡ persist_number self.old.state.now.trace p }
        requires reached { IsReachedWithSome self.old.config self.old.program
            (write_after self.old.state j (Some p)) }
        ensures { self.new ≡ made_to self.old (write_after self.old.state j (Some p)) }
    {
        self.flight.remove(j as usize);
        self.durable[p] = true;
        self.persisted[number as usize] = true;
        self.made += 1;
    }

    // The bank stores the request at place j, unless an older one has its word.
    pub(crate) fn step_write(&mut self, j: u32, bank: &mut ModuleBank) -> Turn
        requires room { self.old.made < self.old.steps }
        requires bank { self.old.program.sizes.persistent ≤ (bank_seen holds bank.old).size }
        ensures { StepLeaves self.old self.new (bank_seen holds bank.old) (bank_seen holds bank.new) (Write j) result }
    {
        self.keeps();
        let Some(p) = self.request_at(j) else {
            return self.bubble(Cause::NoEntry);
        };
        if self.older_waits(j, p) {
            return self.bubble(Cause::OlderWaits);
        }
        let (place, value) = self.request(p);
        let number = self.persist_number(p);
        match bank.store(place, value) {
            Ok(()) => {
                self.write(j, p, number);
                Turn::Done
            }
            Err(AtModule { module }) => Turn::Fault { module },
        }
    }
}

ghost use Rattle.std.specs.Prelude.{◌≡◌, ◌<◌, ◌≤◌, ◌^◌, ◌-◌, IfOk, IfSome, MatchOption, length, true};
ghost use Rattle.strand_base.specs.declared.limits.TheConstants.{MOST_BUFFERS, MOST_RING};
ghost use Rattle.strand_buffer.specs.Buffers.{IsEligible, IsSent, accepted, strand_begun, can_begin, eligible_slot, empty_buffers, has_room, released, sent};

use crate::Slot;
use crate::ring::Ring;
use std::alloc::Global;
use std::marker::Model;
use strand_base::{CORE_ROOM, OutOfMemory};

/// The strand buffers of one core. Strand number k uses the buffer k modulo their number. Contracts see
/// the places of a ring, the current strand number, per buffer its persists from the oldest that isn't
/// durable on, the greatest number accepted, and the epoch of the last persist accepted since the last
/// `begin`.
#[derive(Drop)]
pub struct StrandBuffers {
    ring: u32,
    strand: u32,
    rings: Vec<Ring>,
    number: Option<u32>,
    epoch: Option<u32>,
}

impl Model for StrandBuffers {
    ghost use Rattle.strand_buffer.specs.Buffers.{Buffers};

    ghost Value = { Buffers };

    ghost use Rattle.strand_buffer.specs.KeptBuffers.{seen, AreKeptBuffers};

    ghost view = { seen };

    ghost invariant = { AreKeptBuffers };
}

impl StrandBuffers {
    /// From 1 to 8 empty buffers with 1 to 64 places each, at strand 0. It takes all the memory that
    /// they will need; no other call takes any.
    pub fn new(alloc: Global, buffers: u32, ring: u32) -> Result<StrandBuffers, OutOfMemory>
        requires some { 1 ≤ buffers }
        requires few { buffers ≤ MOST_BUFFERS }
        requires places { 1 ≤ ring }
        requires small { ring ≤ MOST_RING }
        ensures { IfOk result (λ b. b ≡ empty_buffers buffers ring) }
    {
        let mut rings: Vec<Ring> = Vec::with_capacity(alloc, buffers as usize)?;
        for b in 0..buffers {
            rings.push_reserved(Ring::new(alloc, ring)?);
        }
        Ok(StrandBuffers {
            ring,
            strand: 0,
            rings,
            number: None,
            epoch: None,
        })
    }

    /// Whether the current strand's buffer has fewer places in use than a ring has.
    pub fn room(&self) -> bool
        ensures { result ≡ has_room self.now }
    {
        let b = self.strand as usize % self.rings.len();
        let ring = &self.rings[b];
        ring.len() < self.ring as usize
    }

    /// A persist comes to the end of the current strand's buffer, where it waits to be sent. Its number
    /// is greater than all accepted before, and its epoch isn't lower than any of its strand. Its wait
    /// says for each core how many of that core's first persists must be durable before this one may be
    /// sent.
    pub fn accept(&mut self, number: u32, word: u64, value: u64, epoch: u32, wait: [u32; CORE_ROOM])
        requires room { has_room self.old ≡ true }
        requires number { MatchOption self.old.number (Unit {0}) (λ n. n < number) }
        requires epoch { MatchOption self.old.epoch (Unit {0}) (λ e. e ≤ epoch) }
        ensures { self.new ≡ accepted self.old number word value epoch wait }
    {
        let b = self.strand as usize % self.rings.len();
        let ring = &mut self.rings[b];
        ring.accept(number, word, value, epoch, wait);
        self.number = Some(number);
        self.epoch = Some(epoch);
    }

    /// Whether the next strand's buffer holds no persist that isn't durable.
    pub fn can_begin(&self) -> bool
        ensures { result ≡ can_begin self.now }
    {
        let b = (self.strand as usize + 1) % self.rings.len();
        let ring = &self.rings[b];
        ring.len() == 0
    }

    /// The next strand begins.
    pub fn begin(&mut self)
        requires empty { can_begin self.old ≡ true }
        requires strand { self.old.strand < 2 ^ 32 - 1 }
        ensures { self.new ≡ strand_begun self.old }
    {
        self.strand += 1;
        self.epoch = None;
    }

    /// The eligible persist of buffer b that has j of them before it; none exactly where there are at
    /// most j. `durable` says for each core how many of its first persists are all durable; a persist is
    /// eligible only where its wait asks for no more of any core. It looks at each entry of the buffer
    /// once, and compares the eight numbers of its wait.
    pub fn eligible(&self, b: u32, j: u32, durable: &[u32; CORE_ROOM]) -> Option<Slot>
        requires { b < length self.now.lists }
        ensures slot { result ≡ eligible_slot self.now b j durable.now }
        ensures eligible { IfSome result (λ s. IsEligible self.now b s.number durable.now) }
    {
        let ring = &self.rings[b as usize];
        ring.eligible(j, durable)
    }

    /// The persist of this number in buffer b, which is eligible with the counts `durable` (as in
    /// `eligible`), is sent.
    pub fn sent(&mut self, b: u32, number: u32, durable: &[u32; CORE_ROOM])
        requires { IsEligible self.old b number durable.now }
        ensures buffers { self.new ≡ sent self.old b number }
        ensures sent { IsSent self.new b number }
    {
        let ring = &mut self.rings[b as usize];
        ring.sent(number);
    }

    /// The persist of this number in buffer b, which was sent, is durable. Its place is free again once
    /// no older persist of its strand holds one.
    pub fn release(&mut self, b: u32, number: u32)
        requires { IsSent self.old b number }
        ensures { self.new ≡ released self.old b number }
    {
        let ring = &mut self.rings[b as usize];
        ring.release(number);
    }
}

// The entries of one buffer, from the oldest that isn't durable on.
ghost use Rattle.std.specs.Prelude.{◌≡◌, ◌<◌, ◌≤◌, ◌++◌, [], ◌∷◌, IfOk, length, map, vec_capacity};
ghost use Rattle.strand_base.specs.declared.limits.TheConstants.{MOST_RING};
ghost use Rattle.strand_buffer.specs.declared.entry.Stage.TheVariants.{Buffered, Sent, Released};
ghost use Rattle.strand_buffer.specs.Entries.{trimmed};
ghost use Rattle.strand_buffer.specs.Buffers.{found_slot, with_stage};
ghost use Rattle.strand_buffer.specs.Ring.{AreUpTo};

use crate::links::distance_to;
use crate::passing::eligible_at;
use crate::stages::{drop_front, released_in_front, set_stage};
use crate::{Entry, Slot, Stage};
use std::alloc::Global;
use std::marker::Model;
use strand_base::{CORE_ROOM, OutOfMemory};

// Beside each entry stands how far back the latest earlier one of its word is, so that a pass over
// the entries needn't look for it.
#[derive(Drop)]
pub(crate) struct Ring {
    entries: Vec<Entry>,
    links: Vec<u32>,
    room: u32,
}

impl Model for Ring {
    ghost use Rattle.strand_buffer.specs.Ring.{RingSeen};

    ghost Value = { RingSeen };

    ghost use Rattle.std.specs.Prelude.{◌≤◌, vec_capacity};
    ghost use Rattle.strand_buffer.specs.Ring.{KeptRing};

    ghost view = { λ r. record { entries = r.entries.items; room = r.room } };

    ghost invariant = { λ r. KeptRing r.entries.items r.links.items r.room × (r.room ≤ vec_capacity r.entries)
        × (r.room ≤ vec_capacity r.links) };
}

impl Ring {
    // An empty ring with room for so many entries.
    pub fn new(alloc: Global, room: u32) -> Result<Ring, OutOfMemory>
        requires { room ≤ MOST_RING }
        ensures { IfOk result (λ r. (r.entries ≡ []) × (r.room ≡ room)) }
    {
        Ok(Ring {
            entries: Vec::with_capacity(alloc, room as usize)?,
            links: Vec::with_capacity(alloc, room as usize)?,
            room,
        })
    }

    // How many places are in use.
    pub fn len(&self) -> usize
        ensures { result ≡ length self.now.entries }
    {
        self.entries.len()
    }

    // A persist that waits comes to the end.
    pub fn accept(&mut self, number: u32, word: u64, value: u64, epoch: u32, wait: [u32; CORE_ROOM])
        requires room { length self.old.entries < self.old.room }
        requires epoch { AreUpTo self.old.entries epoch }
        ensures { self.new ≡ record self.old {
          entries = self.old.entries
              ++ record { number = number; word = word; value = value; epoch = epoch; wait = wait; stage = Buffered }
              ∷ [];
        } }
    {
        let distance = distance_to(&self.entries, word);
        self.links.push_reserved(distance);
        self.entries.push_reserved(Entry {
            number,
            word,
            value,
            epoch,
            wait,
            stage: Stage::Buffered,
        });
    }

    // The entry eligible with these counts of durable persists that has so many of them before it.
    pub fn eligible(&self, j: u32, durable: &[u32; CORE_ROOM]) -> Option<Slot>
        ensures { result ≡ found_slot self.now.entries j durable.now }
    {
        let place = eligible_at(&self.entries, &self.links, j, durable)?;
        let entry = self.entries[place];
        Some(Slot {
            place: place as u32,
            number: entry.number,
            word: entry.word,
            value: entry.value,
        })
    }

    // The persist of this number is sent.
    pub fn sent(&mut self, number: u32)
        ensures { self.new ≡ record self.old { entries = map (with_stage Sent number) self.old.entries } }
    {
        set_stage(&mut self.entries, number, Stage::Sent);
    }

    // The persist of this number is durable. The places that no older one holds are free.
    pub fn release(&mut self, number: u32)
        ensures { self.new
            ≡ record self.old { entries = trimmed (map (with_stage Released number) self.old.entries) } }
    {
        set_stage(&mut self.entries, number, Stage::Released);
        let free = released_in_front(&self.entries);
        drop_front(&mut self.entries, free);
        drop_front(&mut self.links, free);
    }
}

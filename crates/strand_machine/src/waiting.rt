ghost use Rattle.std.specs.Prelude.{◌≡◌, ◌<◌, ◌++◌, [], ◌∷◌, IfOk, length, slice_index_or};

use std::alloc::Global;
use std::marker::Model;
use strand_base::{CORE_ROOM, OutOfMemory};

// The waits of the persists, by the persists' numbers.
#[derive(Drop)]
pub(crate) struct Waiting {
    waits: Vec<[u32; CORE_ROOM]>,
    room: u32,
}

impl Model for Waiting {
    ghost use Rattle.strand_machine.specs.Stand.{Waiting};

    ghost Value = { Waiting };

    ghost use Rattle.std.specs.Prelude.{◌≤◌, length, vec_capacity};
    ghost use Rattle.strand_machine.specs.KeptWaiting.{waiting_of};

    ghost view = { waiting_of };

    ghost invariant = { λ w. (length w.waits.items ≤ w.room) × (w.room ≤ vec_capacity w.waits) };
}

impl Waiting {
    // No wait is kept yet. There is room for so many.
    pub fn new(alloc: Global, room: u32) -> Result<Waiting, OutOfMemory>
        ensures { IfOk result (λ w. w ≡ record { waits = []; room = room }) }
    {
        Ok(Waiting {
            waits: Vec::with_capacity(alloc, room as usize)?,
            room,
        })
    }

    // The next persist has this wait.
    pub fn push(&mut self, wait: [u32; CORE_ROOM])
        requires { length self.old.waits < self.old.room }
        ensures { self.new ≡ record self.old { waits = self.old.waits ++ wait ∷ [] } }
    {
        self.waits.push_reserved(wait);
    }

    // The wait of the persist of this number.
    pub fn at(&self, number: u32) -> [u32; CORE_ROOM]
        requires { number < length self.now.waits }
        ensures { result ≡ slice_index_or self.now.waits number [] }
    {
        self.waits[number as usize]
    }
}

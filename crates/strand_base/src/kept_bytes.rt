// The bytes that a sink in memory keeps.
ghost use Rattle.std.specs.Prelude.{◌≡◌, [], true, IfOk};
ghost use Rattle.strand_base.specs.SinkInMemory.{keeping};

use crate::OutOfMemory;
use std::alloc::Global;
use std::marker::Model;

#[derive(Drop)]
pub(crate) struct KeptBytes {
    bytes: Vec<u8>,
    room: usize,
    whole: bool,
}

impl Model for KeptBytes {
    ghost use Rattle.std.specs.Prelude.{◌≤◌, vec_len, vec_capacity};
    ghost use Rattle.strand_base.specs.SinkInMemory.{Kept};

    ghost Value = { Kept };

    ghost view = { λ k. record { bytes = k.bytes.items; room = k.room; whole = k.whole } };

    // All its memory was taken when it was made.
    ghost invariant = { λ k. (vec_len k.bytes ≤ k.room) × (k.room ≤ vec_capacity k.bytes) };
}

impl KeptBytes {
    pub(crate) fn new(alloc: Global, room: usize) -> Result<KeptBytes, OutOfMemory>
        ensures { IfOk result (λ kept. kept ≡ record { bytes = []; room = room; whole = true }) }
    {
        Ok(KeptBytes {
            bytes: Vec::with_capacity(alloc, room)?,
            room,
            whole: true,
        })
    }

    pub(crate) fn bytes(&self) -> &[u8]
        ensures { result.now ≡ self.now.bytes }
    {
        &self.bytes
    }

    pub(crate) fn keep(&mut self, piece: &[u8])
        ensures { self.new ≡ keeping piece.now self.old }
    {
        if self.whole && piece.len() <= self.room - self.bytes.len() {
            self.bytes.extend_from_slice(piece).unwrap();
        } else {
            self.whole = false;
        }
    }
}

ghost use Rattle.std.specs.Prelude.{◌≡◌, ◌≢◌, ◌≤◌, ℕ, length, IfOk};
ghost use Rattle.strand_base.specs.declared.limits.TheConstants.{MOST_MEMORY};
ghost use Rattle.strand_exec.specs.Plan.{IsWord};
ghost use Rattle.strand_exec.specs.Memory.{extents_of, with_word, word_in};

use std::alloc::Global;
use std::marker::Model;
use strand_base::{OutOfMemory, PERSISTENT_BASE, VOLATILE_BASE};

/// A flat memory of at most 1,048,576 volatile and 1,048,576 persistent words of eight bytes, which are
/// named by their addresses.
#[derive(Drop)]
pub struct FlatMemory {
    /// The volatile words.
    pub volatile: Vec<u64>,
    /// The persistent words.
    pub persistent: Vec<u64>,
}

impl Model for FlatMemory {
    ghost use Rattle.std.specs.Prelude.{◌≤◌, length};
    ghost use Rattle.strand_base.specs.declared.limits.TheConstants.{MOST_MEMORY};
    ghost use Rattle.strand_exec.specs.Memory.{Memory};

    ghost Value = { Memory };

    ghost view = { λ m. record { volatile = m.volatile.items; persistent = m.persistent.items } };

    ghost invariant = { λ m. (length m.volatile.items ≤ MOST_MEMORY) × (length m.persistent.items ≤ MOST_MEMORY) };
}

impl FlatMemory {
    /// A memory that holds copies of the words. Only this call takes memory.
    pub fn copy(
        alloc: Global,
        volatile: &[u64],
        persistent: &[u64],
    ) -> Result<FlatMemory, OutOfMemory>
        requires volatile { length volatile.now ≤ MOST_MEMORY }
        requires persistent { length persistent.now ≤ MOST_MEMORY }
        ensures { IfOk result (λ m. (m.volatile ≡ volatile.now) × (m.persistent ≡ persistent.now)) }
    {
        Ok(FlatMemory {
            volatile: volatile.to_vec(alloc)?,
            persistent: persistent.to_vec(alloc)?,
        })
    }

    /// The word at an address.
    #[tactic(auto, unfolding(crate::specs::Memory::word_in))]
    pub fn read(&self, word: u64) -> u64
        requires { IsWord (extents_of self.now) word }
        ensures { result ≡ word_in self.now word }
    {
        if word < PERSISTENT_BASE {
            self.volatile[((word - VOLATILE_BASE) / 8) as usize]
        } else {
            self.persistent[((word - PERSISTENT_BASE) / 8) as usize]
        }
    }

    /// Puts another value into the word at an address. All other words stay.
    #[tactic(auto, unfolding(crate::specs::Memory::with_word, crate::specs::Memory::word_in))]
    pub fn write(&mut self, word: u64, value: u64)
        requires { IsWord (extents_of self.old) word }
        ensures memory { self.new ≡ with_word self.old word value }
        ensures written { word_in self.new word ≡ value }
        ensures others { (other : ℕ) → IsWord (extents_of self.old) other → other ≢ word → word_in self.new other ≡ word_in self.old other }
        ensures extents { extents_of self.new ≡ extents_of self.old }
    {
        if word < PERSISTENT_BASE {
            self.volatile[((word - VOLATILE_BASE) / 8) as usize] = value;
        } else {
            self.persistent[((word - PERSISTENT_BASE) / 8) as usize] = value;
        }
    }
}

ghost use Rattle.std.specs.Prelude.{◌≡◌, ◌<◌, ℕ, List, [], Some, None, OnOk, OnErr, IsErrOf};
ghost use Rattle.strand_base.specs.FilesInMemory.{files_never_failing, HoldsAlso, held_by_never};
ghost use Rattle.strand_base.specs.FilesSeen.{Fetches};

use crate::held_files::{HeldFiles, give};
use crate::{FetchFault, Files, OutOfMemory};
use std::alloc::Global;

/// Files in memory that never fail: the count of faults is always 0. A name that was not added holds no
/// bytes.
#[derive(Drop)]
pub struct NeverFiles {
    files: HeldFiles,
    fetches: u64,
}

impl NeverFiles {
    /// Every name holds no bytes. It takes no memory.
    pub fn new(alloc: Global) -> NeverFiles
        ensures told { (name : List ℕ) → held_by_never result name ≡ Some [] }
        ensures fetches { (files_never_failing result).fetches ≡ 0 }
    {
        NeverFiles {
            files: HeldFiles::new(alloc),
            fetches: 0,
        }
    }

    /// Puts these bytes under the name, in place of those that stood there. A refusal changes nothing.
    pub fn add(&mut self, name: &str, bytes: &[u8]) -> Result<(), OutOfMemory>
        ensures ok { OnOk result
            (HoldsAlso (held_by_never self.old) (held_by_never self.new) name.now bytes.now) }
        ensures err { OnErr result (files_never_failing self.new ≡ files_never_failing self.old) }
        ensures fetches { (files_never_failing self.new).fetches
            ≡ (files_never_failing self.old).fetches }
    {
        self.files.add(name, bytes)
    }
}

impl Files for NeverFiles {
    ghost seen = { files_never_failing };

    /// Never fails, and gives no bytes under a name that was not added.
    fn fetch(&mut self, name: &str, limit: usize, into: &mut Vec<u8>) -> Result<(), FetchFault>
        requires empty { into.old.items ≡ [] }
        requires limit { limit < usize.MAX }
        ensures fetches { Fetches (files_never_failing self.old) (files_never_failing self.new)
            name.now limit into.new.items result }
        ensures never { IsErrOf result FetchFault.Failed → ⊥ }
    {
        self.fetches = self.fetches.saturating_add(1);
        match self.files.find(name) {
            Some(file) => give(file, limit, into),
            None => Ok(()),
        }
    }
}

// The bytes under each name, of files in memory.
ghost use Rattle.std.specs.Prelude.{◌≡◌, ◌<◌, ◌≤◌, ◌+◌, ℕ, List, [], None, length, take, OnOk, OnErr, IsErrOf};
ghost use Rattle.std.specs.Option.{option_map};
ghost use Rattle.strand_base.specs.FilesInMemory.{held_in, HoldsAlso};

use crate::{FetchFault, OutOfMemory};
use std::alloc::Global;
use std::collections::BTreeMap;

#[derive(Drop)]
pub(crate) struct HeldFiles {
    alloc: Global,
    files: BTreeMap<String, Vec<u8>>,
}

impl HeldFiles {
    pub(crate) fn new(alloc: Global) -> HeldFiles
        ensures { (name : List ℕ) → held_in result name ≡ None }
    {
        HeldFiles {
            alloc,
            files: BTreeMap::new(alloc),
        }
    }

    pub(crate) fn add(&mut self, name: &str, bytes: &[u8]) -> Result<(), OutOfMemory>
        ensures ok { OnOk result (HoldsAlso (held_in self.old) (held_in self.new) name.now bytes.now) }
        ensures err { OnErr result (held_in self.new ≡ held_in self.old) }
    {
        let name = String::from_str(self.alloc, name)?;
        let bytes = Vec::from_slice(self.alloc, bytes)?;
        self.files.insert(name, bytes)?;
        Ok(())
    }

    pub(crate) fn find(&self, name: &str) -> Option<&[u8]>
        ensures { option_map (λ bytes. bytes.now) result ≡ held_in self.now name.now }
    {
        match self.files.get(name) {
            Some(bytes) => Some(bytes.as_slice()),
            None => None,
        }
    }
}

// The whole file where it is within the limit, else its first limit + 1 bytes.
pub(crate) fn give(file: &[u8], limit: usize, into: &mut Vec<u8>) -> Result<(), FetchFault>
    requires empty { into.old.items ≡ [] }
    requires limit { limit < usize.MAX }
    ensures whole { OnOk result ((length file.now ≤ limit) × (into.new.items ≡ file.now)) }
    ensures long { IsErrOf result FetchFault.TooLong →
        (limit < length file.now) × (into.new.items ≡ take (limit + 1) file.now) }
    ensures failed { IsErrOf result FetchFault.Failed → ⊥ }
    ensures memory { IsErrOf result FetchFault.OutOfMemory → into.new.items ≡ [] }
{
    if file.len() <= limit {
        into.extend_from_slice(file)?;
        Ok(())
    } else {
        into.extend_from_slice(&file[..limit + 1])?;
        Err(FetchFault::TooLong)
    }
}

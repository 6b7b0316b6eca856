ghost use Rattle.std.specs.Prelude.{◌≡◌, ◌<◌, ◌≤◌, ◌+◌, None, [], vec_len, OnOk, IsErrOf};
ghost use Rattle.std.specs.Io.KnownBytes.{Consumes, IsAtEnd};
ghost use Rattle.strand_base.specs.FilesSeen.{OnStopped};

use crate::{FetchFault, Files};
use std::cmp::min;
use std::io::Read;
use std::{fs, rt};

/// The files of the system, for a runtime that opens files. It tells nothing of what they hold, and
/// counts its fetches and its failures (docs/outside.md).
#[derive(Drop)]
pub struct HostFiles<'a, R> {
    rt: &'a R,
    faults: u64,
    fetches: u64,
}

impl<'a, R: rt::Files> HostFiles<'a, R> {
    /// No fetch was made. It takes no memory.
    pub fn new(rt: &'a R) -> HostFiles<'a, R>
        ensures { ⟦<HostFiles<'a, R> as Files>⟧.seen result
            ≡ record { told = None; faults = 0; fetches = 0; last_failed = None } }
    {
        HostFiles {
            rt,
            faults: 0,
            fetches: 0,
        }
    }
}

impl<R: rt::Files> Files for HostFiles<'_, R> {
    ghost seen = { λ files. record {
      told = None;
      faults = files.faults;
      fetches = files.fetches;
      last_failed = None;
    } };

    fn fetch(&mut self, name: &str, limit: usize, into: &mut Vec<u8>) -> Result<(), FetchFault> {
        self.fetches = self.fetches.saturating_add(1);
        match read_file(self.rt, name, limit, into) {
            Ok(()) => Ok(()),
            Err(FetchFault::Failed) => {
                self.faults = self.faults.saturating_add(1);
                Err(FetchFault::Failed)
            }
            Err(FetchFault::TooLong) => Err(FetchFault::TooLong),
            Err(FetchFault::OutOfMemory) => Err(FetchFault::OutOfMemory),
        }
    }
}

fn read_file<R: rt::Files>(
    rt: &R,
    name: &str,
    limit: usize,
    into: &mut Vec<u8>,
) -> Result<(), FetchFault>
    requires empty { into.old.items ≡ [] }
    requires limit { limit < usize.MAX }
    ensures whole { OnOk result (vec_len into.new ≤ limit) }
    ensures long { IsErrOf result FetchFault.TooLong → vec_len into.new ≡ limit + 1 }
    ensures stopped { OnStopped result (vec_len into.new ≤ limit) }
{
    match fs::open(rt, name) {
        Ok(mut file) => read_up_to(&mut file, limit, into),
        Err(_) => Err(FetchFault::Failed),
    }
}

// Reads to the end, or one byte past the limit. Each turn takes at least one byte. What stands in
// `into` is what was read, where the reader tells it.
fn read_up_to<R: Read>(from: &mut R, limit: usize, into: &mut Vec<u8>) -> Result<(), FetchFault>
    requires empty { into.old.items ≡ [] }
    requires limit { limit < usize.MAX }
    ensures bytes { OnOk result (Consumes (R.remaining from.old) (R.remaining from.new) into.new.items) }
    ensures end { OnOk result (IsAtEnd (R.remaining from.new)) }
    ensures front { IsErrOf result FetchFault.TooLong
        → Consumes (R.remaining from.old) (R.remaining from.new) into.new.items }
    ensures whole { OnOk result (vec_len into.new ≤ limit) }
    ensures long { IsErrOf result FetchFault.TooLong → vec_len into.new ≡ limit + 1 }
    ensures stopped { OnStopped result (vec_len into.new ≤ limit) }
{
    let mut buffer = [0u8; 4096];
    while into.len() <= limit {
        let most = min(buffer.len(), limit + 1 - into.len());
        let Ok(count) = from.read(&mut buffer[..most]) else {
            return Err(FetchFault::Failed);
        };
        if count == 0 {
            return Ok(());
        }
        into.extend_from_slice(&buffer[..count])?;
    }
    Err(FetchFault::TooLong)
}

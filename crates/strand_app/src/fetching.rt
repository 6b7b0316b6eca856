ghost use Rattle.std.specs.Prelude.{◌≡◌};
ghost use Rattle.strand_app.specs.Fetching.{FetchesBytes};
ghost use Rattle.strand_app.specs.declared.fetching.OpenFault.TheVariants.{OutOfMemory, Refused};

use std::alloc::{AllocFailed, Global};
use strand_base::{FetchFault, Files, OutOfMemory as NoMemory};
use strand_report::{ContentFault, Refusal};

/// Why it is not known what a command's files say.
#[derive(Clone, Copy, Debug, PartialEq, Eq)]
pub enum OpenFault {
    /// File k, counted from 1, could not be fetched.
    Fetch { file: u32 },
    /// What was given is refused.
    Refused(Refusal),
    OutOfMemory,
}

impl From<NoMemory> for OpenFault {
    ghost from_gives = { λ _ e. e ≡ OutOfMemory };

    fn from(_: NoMemory) -> Self {
        OpenFault::OutOfMemory
    }
}

impl From<Refusal> for OpenFault {
    ghost from_gives = { λ refused e. e ≡ Refused refused };

    fn from(refused: Refusal) -> Self {
        OpenFault::Refused(refused)
    }
}

/// The bytes of file k, counted from 1, which is refused where it has more than `limit` of them.
pub fn fetch<F: Files>(
    alloc: Global,
    file: u32,
    name: &str,
    limit: u32,
    files: &mut F,
) -> Result<Vec<u8>, OpenFault>
    ensures { FetchesBytes file name.now limit (F.seen files.old) (F.seen files.new) result }
{
    let mut bytes = Vec::new(alloc);
    match files.fetch(name, limit as usize, &mut bytes) {
        Ok(()) => Ok(bytes),
        Err(FetchFault::Failed) => Err(OpenFault::Fetch { file }),
        Err(FetchFault::TooLong) => Err(OpenFault::Refused(Refusal::File {
            file,
            fault: ContentFault::TooLong { limit },
        })),
        Err(FetchFault::OutOfMemory) => Err(OpenFault::OutOfMemory),
    }
}

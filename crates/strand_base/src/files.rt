ghost use Rattle.std.specs.Prelude.{◌≡◌, ◌<◌, []};
ghost use Rattle.strand_base.specs.FilesSeen.{FilesSeen, Fetches};

use std::alloc::AllocError;

/// Why a fetch gave no whole file.
#[derive(Clone, Copy, Debug, PartialEq, Eq)]
pub enum FetchFault {
    /// The file could not be read: the count of faults has risen.
    Failed,
    /// The file has more bytes than the limit.
    TooLong,
    /// No memory was left.
    OutOfMemory,
}

impl From<AllocError> for FetchFault {
    ghost use Rattle.std.specs.Prelude.{◌≡◌};
    ghost use Rattle.strand_base.specs.declared.files.FetchFault.TheVariants.{OutOfMemory};

    ghost from_gives = { λ _ e. e ≡ OutOfMemory };

    fn from(_: AllocError) -> Self {
        FetchFault::OutOfMemory
    }
}

/// Files that are read whole, by name (docs/outside.md).
///
/// `seen` is what contracts know of them: the bytes under each name, where the object tells them, the
/// count of faults, which rises at failures alone, the number of fetches, and the name of the last fetch
/// that failed.
pub trait Files {
    ghost seen: { Self → FilesSeen };

    /// Reads the whole file of that name into `into`, which is empty; `limit` is in bytes.
    ///
    /// Ok: `into` holds the whole file, at most `limit` bytes. `TooLong`: its first `limit + 1` bytes.
    /// `Failed`, only where the count of faults has risen, and `OutOfMemory`: some first bytes of it,
    /// which are of no use. The files stay as they were, and the number of fetches rises by one or stays
    /// at 2^64 - 1.
    fn fetch(&mut self, name: &str, limit: usize, into: &mut Vec<u8>) -> Result<(), FetchFault>
        requires empty { into.old.items ≡ [] }
        requires limit { limit < usize.MAX }
        ensures { Fetches (seen self.old) (seen self.new) name.now limit into.new.items result };
}

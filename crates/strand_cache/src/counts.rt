ghost use Rattle.std.specs.Prelude.{◌≡◌};
ghost use Rattle.strand_cache.specs.Seen.{access_counted};

/// How many accesses of a core hit and missed. Each number stays at 2^64 - 1.
#[derive(Clone, Copy, Debug, PartialEq, Eq)]
pub struct Counts {
    /// Accesses to lines that the core held.
    pub hits: u64,
    /// All others.
    pub misses: u64,
}

impl Counts {
    /// The counts after one more access.
    pub(crate) fn counted(self, hit: bool) -> Counts
        ensures { result ≡ access_counted hit self }
    {
        if hit {
            Counts {
                hits: self.hits.saturating_add(1),
                misses: self.misses,
            }
        } else {
            Counts {
                hits: self.hits,
                misses: self.misses.saturating_add(1),
            }
        }
    }
}

ghost use Rattle.std.specs.Prelude.{◌≡◌};
ghost use Rattle.strand_cache.specs.Changes.{stores};

/// What an access does to its word.
#[derive(Clone, Copy, Debug, PartialEq, Eq)]
pub enum Change {
    /// A load: nothing.
    Read,
    /// A store: the word becomes `(old & !mask) | bits`.
    Merge { mask: u64, bits: u64 },
}

impl Change {
    /// Whether the access is a store.
    pub(crate) fn stores(self) -> bool
        ensures { result ≡ stores self }
    {
        match self {
            Change::Read => false,
            Change::Merge { mask: _, bits: _ } => true,
        }
    }
}

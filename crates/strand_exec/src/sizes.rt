use std::marker::Model;

/// The numbers of volatile and of persistent words, each at most 1,048,576.
#[derive(Clone, Copy, Debug, PartialEq, Eq)]
pub struct Sizes {
    /// How many volatile words there are.
    pub volatile: u32,
    /// How many persistent words there are.
    pub persistent: u32,
}

impl Model for Sizes {
    ghost use Rattle.std.specs.Prelude.{◌≤◌};
    ghost use Rattle.strand_base.specs.declared.limits.TheConstants.{MOST_MEMORY};
    ghost use Rattle.strand_exec.specs.Core.{Extents};

    ghost Value = { Extents };

    ghost view = { λ s. record { volatile = s.volatile; persistent = s.persistent } };

    ghost invariant = { λ s. (s.volatile ≤ MOST_MEMORY) × (s.persistent ≤ MOST_MEMORY) };

    ghost inverse = { λ e. record { volatile = e.volatile; persistent = e.persistent } };
}

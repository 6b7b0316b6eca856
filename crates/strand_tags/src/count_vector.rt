ghost use Rattle.std.specs.Prelude.{◌≡◌, ◌<◌, ℕ, max, slice_index};
ghost use Rattle.strand_base.specs.declared.limits.TheConstants.{CORE_ROOM};

use strand_base::CORE_ROOM;

/// A number of persists for each of eight cores. What waits for these waits until so many of each
/// core's first persists are all durable.
#[derive(Clone, Copy, Debug, PartialEq, Eq)]
pub struct CountVector {
    /// The numbers, by core.
    pub counts: [u32; CORE_ROOM],
}

/// No persist of any core.
pub(crate) const NO_COUNTS: CountVector = CountVector {
    counts: [0; CORE_ROOM],
};

impl CountVector {
    /// The greater number at each core.
    pub fn greater(&self, other: &CountVector) -> CountVector
        ensures { (c : ℕ) → c < CORE_ROOM
            → slice_index result.counts c
            ≡ max (slice_index self.now.counts c) (slice_index other.now.counts c) }
    {
        let mut counts = self.counts;
        for c in 0..CORE_ROOM {
            counts[c] = counts[c].max(other.counts[c]);
        }
        CountVector { counts }
    }
}

ghost use Rattle.std.specs.Prelude.{◌≡◌};
ghost use Rattle.strand_tags.specs.WordTags.{whole, without_strand, tag_after};

/// What is kept of the accesses of one core to one word. No strand before the latest is asked for
/// again, so three numbers do, however many accesses there were.
#[derive(Clone, Copy, Debug, PartialEq, Eq)]
pub(crate) struct WordTag {
    /// The number of the latest strand of them.
    pub strand: u32,
    /// The greatest number of persists that the core had made at one of the latest strand.
    pub latest: u32,
    /// The same of all earlier strands.
    pub earlier: u32,
}

/// The tag of no access.
pub(crate) const NO_TAG: WordTag = WordTag {
    strand: 0,
    latest: 0,
    earlier: 0,
};

impl WordTag {
    /// The greatest number of persists that the core had made at one of the accesses.
    pub(crate) fn whole(&self) -> u32
        ensures { result ≡ whole self.now }
    {
        self.latest.max(self.earlier)
    }

    /// The same without the accesses of a strand, which is none before the latest.
    pub(crate) fn without(&self, strand: u32) -> u32
        ensures { result ≡ without_strand self.now strand }
    {
        if self.strand == strand {
            self.earlier
        } else {
            self.whole()
        }
    }

    /// The tag with one access more, of a strand that is none before the latest.
    pub(crate) fn tag_after(&self, strand: u32, made: u32) -> WordTag
        ensures { result ≡ tag_after self.now strand made }
    {
        if self.strand == strand {
            WordTag {
                strand,
                latest: self.latest.max(made),
                earlier: self.earlier,
            }
        } else {
            WordTag {
                strand,
                latest: made,
                earlier: self.whole(),
            }
        }
    }
}

use strand_base::Numbers;

/// Whether a crash image may have come from a run.
#[derive(Debug, Drop)]
pub enum Verdict {
    /// It may: the numbers of the persists of the least set that gives it, ascending.
    Yes(Numbers),
    /// It may not: the first word, by its address, at which the least settled set differs from it, and how
    /// many persists to the word that set holds.
    No { word: u64, rank: u32 },
}

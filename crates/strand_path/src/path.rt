use strand_base::Numbers;

/// A chain of persists and what shows that none is longer.
#[derive(Debug, Drop)]
pub struct Path {
    /// The numbers of the chain's persists.
    pub chain: Numbers,
    /// The numbers of events that edges lead along, from the first persist to the last.
    pub route: Numbers,
    /// A number for each event, which falls along no edge and rises at persists.
    pub levels: Numbers,
}

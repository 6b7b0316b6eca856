/// What an access saw.
#[derive(Clone, Copy, Debug, PartialEq, Eq)]
pub struct Access {
    /// Whether its core held the line (docs/cache.md).
    pub hit: bool,
    /// The word after the access.
    pub value: u64,
}

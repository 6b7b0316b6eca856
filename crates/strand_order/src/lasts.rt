/// One more than the number of the core's last event of a kind, or 0 where there is none.
#[derive(Clone, Copy)]
pub(crate) struct CoreLasts {
    /// an access or a join
    pub(crate) step: u32,
    /// an access, a barrier or a join
    pub(crate) drained: u32,
    pub(crate) barrier: u32,
    /// the beginning of a strand
    pub(crate) begin: u32,
    pub(crate) join: u32,
}

/// One more than the number of a word's last access and of the last store to it, or 0 where there is none.
#[derive(Clone, Copy)]
pub(crate) struct WordLasts {
    pub(crate) access: u32,
    pub(crate) store: u32,
}

/// The last event of a chain and its floor, below which the chain isn't followed, and one event more; each is one
/// more than an event's number, or 0 where there is none.
#[derive(Clone, Copy)]
pub(crate) struct Sources {
    pub(crate) last: u32,
    pub(crate) floor: u32,
    pub(crate) single: u32,
}

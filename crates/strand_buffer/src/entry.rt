use strand_base::CORE_ROOM;

/// How far a persist in a buffer has come.
#[derive(Clone, Copy, Debug, PartialEq, Eq)]
pub enum Stage {
    /// It waits to be sent.
    Buffered,
    /// It was sent, and isn't durable yet.
    Sent,
    /// It is durable.
    Released,
}

/// A persist in a buffer, as contracts see it.
#[derive(Clone, Copy, Debug, PartialEq, Eq)]
pub struct Entry {
    /// Its number among the persists of the run.
    pub number: u32,
    /// Its word, named by the address of its first byte.
    pub word: u64,
    /// The value that it leaves in the word.
    pub value: u64,
    /// Its epoch, a number within its strand.
    pub epoch: u32,
    /// Its wait: for each core how many of that core's first persists must be durable before this one
    /// may be sent. A number of 0 asks nothing of its core.
    pub wait: [u32; CORE_ROOM],
    /// How far it has come.
    pub stage: Stage,
}

/// A persist that may be sent.
#[derive(Clone, Copy, Debug, PartialEq, Eq)]
pub struct Slot {
    /// Its place in its buffer, counted from the oldest persist there that isn't durable.
    pub place: u32,
    /// Its number among the persists of the run.
    pub number: u32,
    /// Its word, named by the address of its first byte.
    pub word: u64,
    /// The value that it leaves in the word.
    pub value: u64,
}

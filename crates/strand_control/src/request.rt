/// A persist that was sent and isn't durable yet.
#[derive(Clone, Copy, Debug, PartialEq, Eq)]
pub struct Request {
    /// The core that made it.
    pub core: u32,
    /// The buffer that it came from.
    pub buffer: u32,
    /// Its number among the persists of the run.
    pub number: u32,
    /// Its word, named by the address of its first byte.
    pub word: u64,
    /// The value that it leaves in the word.
    pub value: u64,
}

/// What came of the write of a request.
#[derive(Clone, Copy, Debug, PartialEq, Eq)]
pub enum WriteTurn {
    /// This request was written and left the list.
    Written(Request),
    /// There is no request at the place that was named.
    NoEntry,
    /// An older request has the same word.
    OlderWaits,
    /// The bank refused the store, and no request and no word changed.
    Fault {
        /// The module that refused.
        module: u32,
    },
}

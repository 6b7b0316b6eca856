/// Whether a core runs on.
#[derive(Clone, Copy, Debug, PartialEq, Eq)]
pub enum Life {
    /// It has a next instruction.
    Running,
    /// It has halted itself.
    Halted,
    /// A trap has ended it.
    Trapped(Trap),
}

/// Why an instruction can't be done. The core keeps the pc and the registers that it had.
#[derive(Clone, Copy, Debug, PartialEq, Eq)]
pub enum Trap {
    /// The pc is no multiple of 4, or has no code word.
    Fetch,
    /// A jump or a taken branch goes to a place that is no multiple of 4.
    Target { at: u64 },
    /// The word is no instruction.
    Illegal,
    /// The address of an access is no multiple of its size.
    Misaligned { at: u64 },
    /// The address of an access is outside the volatile and the persistent words.
    Access { at: u64 },
    /// A call of the environment has a number that is none.
    Call { number: u64 },
}

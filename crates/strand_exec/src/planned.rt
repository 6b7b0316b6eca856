use crate::life::Trap;

/// What the next instruction of a core asks of the world. Words are named by their address, a multiple of 8.
#[derive(Clone, Copy, Debug, PartialEq, Eq)]
pub enum Plan {
    /// Nothing: only the core changes.
    Plain,
    /// The data word at `word` is read.
    Load { word: u64 },
    /// The data word at `word` becomes `(old & !mask) | bits`.
    Store { word: u64, mask: u64, bits: u64 },
    /// An epoch of the core's strand ends.
    Barrier,
    /// The core begins a new strand.
    NewStrand,
    /// The core waits until its persists are durable.
    Join,
    /// The value is put out.
    Out { value: u64 },
    /// The core halts.
    Halt,
    /// The core is ended by a trap.
    Trap(Trap),
}

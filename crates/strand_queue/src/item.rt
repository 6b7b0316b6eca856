/// What a core puts into its persist queue.
#[derive(Clone, Copy, Debug, PartialEq, Eq)]
pub enum Item {
    /// A store to a persistent word.
    Persist {
        /// Its number among the persists of the run, from 0.
        number: u32,
        /// Its word, named by the address of its first byte.
        word: u64,
        /// The value that it leaves in the word.
        value: u64,
        /// Its epoch, a number within its strand (docs/persist-order.md).
        epoch: u32,
    },
    /// A persist barrier.
    Barrier,
    /// The begin of a strand.
    NewStrand,
}

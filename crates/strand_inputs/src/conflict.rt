/// How an access that conflicts with an earlier one of another strand waits (docs/cycle.md).
#[derive(Clone, Copy, Debug, PartialEq, Eq)]
pub enum Conflict {
    /// The core waits until each persist of the earlier access's core, at or before that access, is durable.
    Stall,
    /// The access retires, and its persist waits in its strand buffer.
    Tag,
}

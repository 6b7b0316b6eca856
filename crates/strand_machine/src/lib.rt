//! The ring machine: the plain machine's states, by bounded queues, strand buffers, tags, caches and a
//! controller, so that no step looks back over the trace (docs/rings.md).
#![tactic(auto)]

mod core_steps;
mod deciding;
mod dispatch_steps;
mod machine;
mod making;
mod parts;
mod send_steps;
mod tally;
mod waiting;
mod write_steps;

pub use machine::Machine;

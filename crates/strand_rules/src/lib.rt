//! The plain machine: up to eight cores under a schedule, whose persists go through a queue of their
//! core, a buffer of their strand and the requests in flight to the bank (docs/cycle.md). Under the
//! rule `stall` an access of a core waits for what conflicts with it; under `tag` it retires, and
//! its persist waits in its buffer until the wait of the access is met (docs/waits.md).
#![tactic(auto)]

mod acting;
mod conflict_rules;
mod core_rules;
mod core_steps;
mod dispatch_rules;
mod dispatch_steps;
mod items;
mod laws;
mod met;
mod past;
mod pipeline;
mod plain_machine;
mod plain_steps;
mod send_rules;
mod turn;
mod waits;
mod write_rules;
mod write_steps;

pub use acting::made_event;
pub use items::is_item;
pub use laws::{
    durable_sets_are_allowed, images_follow_the_trace, parts_are_kept, tagged_accesses_never_stall,
    visible_runs_are_kept,
};
pub use pipeline::Pipeline;
pub use plain_machine::PlainMachine;
pub use turn::{BubbleAt, Cause, StepFault, Turn};

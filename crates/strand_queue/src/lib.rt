//! A core's persist queue: what the core has made and not yet dispatched, in room for so many
//! (docs/rings.md).
#![tactic(auto)]

mod item;
mod persist_queue;

pub use item::Item;
pub use persist_queue::PersistQueue;

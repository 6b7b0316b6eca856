//! For each word and core, what the accesses that were noted make a later access wait for, and what
//! a core keeps of the waits of its own.
#![tactic(auto)]

mod core_waits;
mod count_vector;
mod laws;
mod tags;
mod word_tag;

pub use core_waits::CoreWaits;
pub use count_vector::CountVector;
pub use laws::{counts_tell_what_waits, waits_are_noted};
pub use tags::Tags;

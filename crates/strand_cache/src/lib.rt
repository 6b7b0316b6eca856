//! Visible memory in cache lines of the cores, with one owner of each changed line (docs/cache.md).
#![tactic(auto)]

mod access;
mod backing;
mod change;
mod counts;
mod group;
mod held_line;
mod hierarchy;
mod laws;
mod lines;
mod row;
mod rows;

pub use access::Access;
pub use change::Change;
pub use counts::Counts;
pub use hierarchy::Hierarchy;
pub use laws::cache_laws;
pub use lines::LINE_BYTES;

//! A longest chain of persists, and its check.
#![tactic(auto)]

mod checking;
mod choosing;
mod laws;
mod numbering;
mod path;
mod picking;
mod routes;
mod tracing;
mod walking;

pub use checking::check_path;
pub use choosing::longest;
pub use laws::chosen_chains_are_longest;
pub use path::Path;

//! The controller: the requests in flight of all cores, and the step that writes one of them into the
//! bank (docs/rings.md).
#![tactic(auto)]

mod controller;
mod request;

pub use controller::Controller;
pub use request::{Request, WriteTurn};

//! The strand buffers of one core: persists wait there to be sent, may become durable out of order,
//! and give their places back in order (docs/rings.md).
#![tactic(auto)]

mod buffers;
mod entry;
mod links;
mod passing;
mod ring;
mod stages;

pub use buffers::StrandBuffers;
pub use entry::{Entry, Slot, Stage};

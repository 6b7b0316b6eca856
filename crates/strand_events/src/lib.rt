//! The trace of a run: what its cores did that others can see or that orders persists.
#![tactic(auto)]

mod event;
mod event_counts;
mod joined;
mod laws;
mod trace;

pub use event::Event;
pub use laws::{
    persist_order_laws, waits_are_kept_by_vectors, waits_are_met_by_prefixes,
    waits_cover_other_strands,
};
pub use trace::Trace;

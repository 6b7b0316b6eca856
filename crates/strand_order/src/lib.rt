//! The graph of a trace: few edges, whose paths between accesses are exactly persist order.
#![tactic(auto)]

mod building;
mod edge;
mod graph;
mod lasts;
mod laws;
mod seen;
mod sources;
mod walking;

pub use edge::Edge;
pub use graph::{Graph, build};
pub use laws::{
    edges_are_listed, paths_are_persist_order, paths_past_barriers_and_joins_are_direct,
};

/// An edge of a graph, from an event to a later one, by their numbers in the trace.
#[derive(Clone, Copy, Debug, PartialEq, Eq)]
pub struct Edge {
    pub before: u32,
    pub after: u32,
}

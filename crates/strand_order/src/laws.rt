ghost use Rattle.std.specs.Prelude.{◌≡◌, ◌<◌, ℕ, true, List, Some, length, slice_get};
ghost use Rattle.strand_inputs.specs.declared.mode.Mode.{Mode};
ghost use Rattle.strand_events.specs.declared.event.Event.{Event};
ghost use Rattle.strand_events.specs.Trace.{event_is, is_access};
ghost use Rattle.strand_events.specs.Order.{Before, directly_before};
ghost use Rattle.strand_order.specs.Graph.{EdgePath, LeadsTo, is_edge};
ghost use Rattle.strand_order.specs.Edges.{edge_from, edges_of, StandsBefore};
ghost use Rattle.strand_order.specs.DirectPaths.{AreBarriersOrJoins};
ghost use Rattle.strand_order.specs.declared.edge.Edge.{Edge};

/// Between two accesses a path of edges is exactly persist order, for every trace and all three modes
/// (docs/persist-order.md).
pub fn paths_are_persist_order()
    ensures path { (mode : Mode) (t : List Event) (a b : ℕ) → event_is is_access t a ≡ true → event_is is_access t b ≡ true
        → LeadsTo mode t a b → Before mode t a b }
    ensures before { (mode : Mode) (t : List Event) (a b : ℕ) → Before mode t a b → LeadsTo mode t a b }
{}

/// The list of a graph's edges has every edge (`all`) and nothing else (`only`), and goes by the later event
/// and then by the earlier, so that each edge is there once (`order`).
pub fn edges_are_listed()
    ensures all { (mode : Mode) (t : List Event) (i j : ℕ) → j < length t → is_edge mode t i j ≡ true
        → (m : ℕ) × (slice_get (edges_of mode t) m ≡ Some (edge_from j i)) }
    ensures only { (mode : Mode) (t : List Event) (m : ℕ) (e : Edge) → slice_get (edges_of mode t) m ≡ Some e
        → (is_edge mode t e.before e.after ≡ true) × (e.after < length t) }
    ensures order { (mode : Mode) (t : List Event) (m k : ℕ) (e f : Edge) → m < k → slice_get (edges_of mode t) m ≡ Some e
        → slice_get (edges_of mode t) k ≡ Some f → StandsBefore e f }
{}

/// Of two accesses that an edge joins, or a path of edges past barriers and joins alone, the earlier comes directly
/// before the later, for every trace and all three modes.
pub fn paths_past_barriers_and_joins_are_direct()
    ensures { (mode : Mode) (t : List Event) (a b : ℕ) (xs : List ℕ) → event_is is_access t a ≡ true → event_is is_access t b ≡ true
        → AreBarriersOrJoins t xs → EdgePath mode t a xs b → directly_before mode t a b ≡ true }
{}

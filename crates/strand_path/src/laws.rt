ghost use Rattle.std.specs.Prelude.{◌≡◌, ◌≤◌, ℕ, List, length};
ghost use Rattle.strand_inputs.specs.declared.mode.Mode.{Mode};
ghost use Rattle.strand_events.specs.declared.event.Event.{Event};
ghost use Rattle.strand_path.specs.Chains.{IsChain, events_of};
ghost use Rattle.strand_path.specs.Chosen.{IsChosenChain};

/// What the chosen chain of a trace is, for every trace and all three modes: there is at most one (`one`), it is a
/// chain of persist order (`chain`), and no chain is longer (`longest`).
pub fn chosen_chains_are_longest()
    ensures one { (mode : Mode) (t : List Event) (chain other : List ℕ) → IsChosenChain mode t chain → IsChosenChain mode t other
        → chain ≡ other }
    ensures chain { (mode : Mode) (t : List Event) (chain : List ℕ) → IsChosenChain mode t chain → IsChain mode t (events_of t chain) }
    ensures longest { (mode : Mode) (t : List Event) (chain other : List ℕ) → IsChosenChain mode t chain → IsChain mode t other
        → length other ≤ length chain }
{}

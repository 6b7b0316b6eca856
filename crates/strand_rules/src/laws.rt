ghost use Rattle.std.specs.Prelude.{◌≡◌, ◌<◌, ◌≤◌, ◌==◌, ◌||◌, ◌++◌, [], ◌∷◌, ℕ, true, List, length, slice_set};
ghost use Rattle.strand_base.specs.declared.limits.TheConstants.{MOST_MEMORY};
ghost use Rattle.strand_inputs.specs.Settings.{Settings};
ghost use Rattle.strand_inputs.specs.declared.step.Step.{Step};
ghost use Rattle.strand_exec.specs.Core.{Core};
ghost use Rattle.strand_exec.specs.Memory.{Memory};
ghost use Rattle.strand_events.specs.declared.event.Event.{Event};
ghost use Rattle.strand_events.specs.Trace.{is_persist, event_is, word_at, value_at};
ghost use Rattle.strand_base.specs.Places.{persistent_place, address_of};
ghost use Rattle.strand_events.specs.Order.{Set, IsDownwardClosed, HoldsJoined};
ghost use Rattle.strand_modules.specs.Bank.{BankSeen};
ghost use Rattle.strand_rules.specs.Images.{persistent_image};
ghost use Rattle.strand_rules.specs.Visible.{Program, visible};
ghost use Rattle.strand_rules.specs.declared.turn.Turn.{Turn};
ghost use Rattle.strand_rules.specs.Cycle.{State, after_steps, start_at, durable_set, turn, IsReached};
ghost use Rattle.strand_rules.specs.Machine.{Machine, StepLeaves, StandsOn};
ghost use Rattle.strand_rules.specs.DispatchedPersists.{AreInOrder, AreParts, AreAccounted, AreMet, FitBuffers};
ghost use Rattle.strand_inputs.specs.declared.mode.Mode.{Mode};
ghost use Rattle.strand_rules.specs.declared.turn.Cause.TheVariants as causes;
ghost use Rattle.strand_rules.specs.declared.turn.Turn.TheVariants.{Bubble};
ghost use Rattle.strand_inputs.specs.declared.conflict.Conflict.TheVariants.{Tag};

/// The law over all settings, every program, every start and every list of steps: the cores, the
/// memory and the trace are those of the visible run over the cores that retired (docs/cycle.md).
pub fn visible_runs_are_kept()
    ensures { (g : Settings) (p : Program) (cores : List Core) (memory : Memory) (steps : List Step)
        → (after_steps g p (start_at cores memory) steps).now
        ≡ visible p (start_at cores memory).now
        (after_steps g p (start_at cores memory) steps).retired }
{}

/// The crash theorem, over all settings, every program, every start and every list of steps
/// (docs/cycle.md): the durable set is downward-closed in persist order, and holds every persist
/// that a core made before its last join; and a bank that stands for a state which a run reaches
/// stands for the state after a step, also where the bank refuses the step's store, for programs
/// whose volatile words end below the persistent ones.
pub fn durable_sets_are_allowed()
    ensures closed { (g : Settings) (p : Program) (cores : List Core) (memory : Memory)
        (steps : List Step)
        → IsDownwardClosed g.mode (after_steps g p (start_at cores memory) steps).now.trace
        (durable_set (after_steps g p (start_at cores memory) steps)) }
    ensures joined { (g : Settings) (p : Program) (cores : List Core) (memory : Memory)
        (steps : List Step)
        → HoldsJoined (after_steps g p (start_at cores memory) steps).now.trace
        (durable_set (after_steps g p (start_at cores memory) steps)) }
    ensures stands { (old new : Machine) (step : Step) (turn : Turn) (bank bank' : BankSeen)
        → IsReached old.config old.program old.state → old.program.sizes.volatile ≤ MOST_MEMORY
        → StepLeaves old new bank bank' step turn
        → StandsOn old.program.sizes.persistent old.state new.state bank bank' }
{}

/// What holds of the persistent words that a set of persists leaves, over any initial words: before
/// the first event they are the initial words; a new event that the set doesn't hold doesn't change
/// them; and one persist more, of whose word the set holds no later persist, puts its value at its
/// word, where this is one of the persistent words.
pub fn images_follow_the_trace()
    ensures begins { (words : List ℕ) (set : Set) → persistent_image words [] set ≡ words }
    ensures grows { (words : List ℕ) (t : List Event) (e : Event) (set : Set)
        → (set (length t) ≡ true → ⊥)
        → persistent_image words (t ++ e ∷ []) set ≡ persistent_image words t set }
    ensures stores { (words : List ℕ) (t : List Event) (set : Set) (p : ℕ)
        → event_is is_persist t p ≡ true
        → ((q : ℕ) → p < q → event_is is_persist t q ≡ true → word_at t q ≡ word_at t p
        → set q ≡ true → ⊥)
        → persistent_place (word_at t p) < length words → word_at t p
        ≡ address_of (persistent_place (word_at t p))
        → persistent_image words t (λ k. (k == p) || set k)
        ≡ slice_set (persistent_image words t set) (persistent_place (word_at t p)) (value_at t p) }
{}

/// What holds of every state that a run reaches (docs/cycle.md): the buffered persists, those in
/// flight and the durable ones are apart, and together the dispatched ones (`parts`); the wait of
/// each persist in flight or durable is met, and under the rule `stall` that of every access
/// (`met`); persists are sent by epochs and written by their order (`in_order`); and buffers hold
/// one strand each, rings and requests no more than the settings say (`buffers`). And of every
/// trace (docs/waits.md): a persist before an access is one that its wait counts, or is of its
/// strand and has a lower epoch or its word (`accounted`).
pub fn parts_are_kept()
    ensures parts { (g : Settings) (p : Program) (s : State) → IsReached g p s → AreParts g s }
    ensures accounted { (mode : Mode) (t : List Event) → AreAccounted mode t }
    ensures met { (g : Settings) (p : Program) (s : State) → IsReached g p s
        → AreMet g.conflict g.mode s.now.trace s.flight (durable_set s) }
    ensures in_order { (g : Settings) (p : Program) (s : State) → IsReached g p s
        → AreInOrder g.mode s.now.trace s.flight (durable_set s) }
    ensures buffers { (g : Settings) (p : Program) (s : State) → IsReached g p s → FitBuffers g s }
{}

/// Under the rule `tag` no access waits to retire: no turn is a bubble for a conflict
/// (docs/cycle.md). Its persist waits instead (docs/waits.md).
pub fn tagged_accesses_never_stall()
    ensures { (g : Settings) (p : Program) (s : State) (step : Step) → g.conflict ≡ Tag
        → turn g p s step ≡ Bubble causes.Conflict → ⊥ }
{}

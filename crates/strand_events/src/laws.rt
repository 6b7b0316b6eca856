ghost use Rattle.std.specs.Prelude.{◌≡◌, ◌<◌, ◌≤◌, ◌↔◌, ◌==◌, ◌++◌, [], ◌∷◌, ℕ, true, false, List, length, max};
ghost use Rattle.strand_inputs.specs.declared.mode.Mode.{Mode};
ghost use Rattle.strand_events.specs.declared.event.Event.{Event};
ghost use Rattle.strand_events.specs.Trace.{core_at, core_of, epoch, event_is, is_access, is_join, is_persist, same_strand, word_at};
ghost use Rattle.strand_events.specs.Order.{Before, Set, core_orders, stands_between};
ghost use Rattle.strand_events.specs.Greatest.{max_below};
ghost use Rattle.strand_events.specs.Prefixes.{durable_prefix};
ghost use Rattle.strand_events.specs.Waits.{IsHandedTo, handed, is_met, wait, wait_counts};
ghost use Rattle.strand_events.specs.Vectors.{core_waits, handed_by_conflicts, next_by_order, waits_after};

/// What follows from the definitions of persist order, for every trace (docs/persist-order.md): it goes
/// forward, it is closed under chains, and persists to one word are ordered. Within a strand a core
/// orders two accesses exactly where the later one has a higher epoch, and between its strands only
/// by a join.
pub fn persist_order_laws()
    ensures forward { (mode : Mode) (t : List Event) (a b : ℕ) → Before mode t a b → a < b }
    ensures chains { (mode : Mode) (t : List Event) (a b c : ℕ) → Before mode t a b → Before mode t b c → Before mode t a c }
    ensures words { (mode : Mode) (t : List Event) (p q : ℕ) → event_is is_persist t p ≡ true → event_is is_persist t q ≡ true
        → word_at t p ≡ word_at t q → p < q → Before mode t p q }
    ensures epochs { (mode : Mode) (t : List Event) (a b : ℕ) → a < b → event_is is_access t a ≡ true → same_strand mode t a b ≡ true
        → (core_orders mode (core_at t a) t a b ≡ true) ↔ (epoch mode t a < epoch mode t b) }
    ensures joins { (mode : Mode) (t : List Event) (a b : ℕ) → a < b → event_is is_access t a ≡ true → core_at t a ≡ core_at t b
        → same_strand mode t a b ≡ false → core_orders mode (core_at t a) t a b ≡ true → stands_between is_join (core_at t a) t a b ≡ true }
{}

/// What the wait of an access is, for every trace (docs/waits.md). It is one number a core: the greatest
/// of what the accesses directly before it hand on (`greatest`). It counts a persist exactly where that
/// was handed on from another strand, to the access or to one before it (`handed`), and so each persist
/// of another strand that is before the access (`counted`).
pub fn waits_cover_other_strands()
    ensures greatest { (mode : Mode) (t : List Event) (core x : ℕ)
        → wait mode t core x ≡ max_below x (handed mode t (wait mode t core) core x) }
    ensures handed { (mode : Mode) (t : List Event) (p x : ℕ) → event_is is_persist t p ≡ true
        → (wait_counts mode t x p ≡ true) ↔ IsHandedTo mode t p x }
    ensures counted { (mode : Mode) (t : List Event) (p b : ℕ) → event_is is_persist t p ≡ true
        → Before mode t p b → same_strand mode t p b ≡ false → wait_counts mode t b p ≡ true }
{}

/// When a wait is met: exactly where none of its numbers is greater than how many of that core's first
/// persists are all durable (`prefixes`). A wait stays as it is when the trace grows (`kept`), and counts
/// persists of earlier events alone (`earlier`).
pub fn waits_are_met_by_prefixes()
    ensures kept { (mode : Mode) (t : List Event) (e : Event) (core x : ℕ) → x < length t
        → wait mode (t ++ e ∷ []) core x ≡ wait mode t core x }
    ensures earlier { (mode : Mode) (t : List Event) (x p : ℕ) → wait_counts mode t x p ≡ true → p < x }
    ensures prefixes { (mode : Mode) (t : List Event) (durable : Set) (x : ℕ)
        → (is_met mode t durable x ≡ true) ↔ ((n : ℕ) → wait mode t n x ≤ durable_prefix t durable n) }
{}

/// The wait of the next access without a look back: the greatest of what the accesses that conflict with
/// it hand on, and of what the order of its own core does (`next`); and how what is kept of a core for
/// that changes by one event more, where that is the core's (`own`) and where it isn't (`others`).
pub fn waits_are_kept_by_vectors()
    ensures next { (mode : Mode) (t : List Event) (e : Event) (core : ℕ) → is_access e ≡ true
        → wait mode (t ++ e ∷ []) core (length t)
        ≡ max (handed_by_conflicts mode (t ++ e ∷ []) core (length t))
        (next_by_order mode (core == core_of e) (core_waits mode t core (core_of e))) }
    ensures own { (mode : Mode) (t : List Event) (e : Event) (core n : ℕ) → (core_of e == n) ≡ true
        → core_waits mode (t ++ e ∷ []) core n
        ≡ waits_after mode e (wait mode (t ++ e ∷ []) core (length t)) (core_waits mode t core n) }
    ensures others { (mode : Mode) (t : List Event) (e : Event) (core n : ℕ) → (core_of e == n) ≡ false
        → core_waits mode (t ++ e ∷ []) core n ≡ core_waits mode t core n }
{}

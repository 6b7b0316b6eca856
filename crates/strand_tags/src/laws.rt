ghost use Rattle.std.specs.Prelude.{◌≡◌, ◌<◌, ◌≤◌, ◌+◌, ◌&&◌, ◌==◌, not, nat_lt, ℕ, true, false, List, [], ◌∷◌, ◌++◌, length, slice_index};
ghost use Rattle.strand_base.specs.declared.limits.TheConstants.{CORE_ROOM};
ghost use Rattle.strand_base.specs.Counting.{any_below};
ghost use Rattle.strand_inputs.specs.declared.mode.Mode.{Mode};
ghost use Rattle.strand_inputs.specs.declared.conflict.Conflict.{Conflict};
ghost use Rattle.strand_inputs.specs.declared.conflict.Conflict.TheVariants.{Tag};
ghost use Rattle.strand_events.specs.declared.event.Event.{Event};
ghost use Rattle.strand_events.specs.Fits.{AllFit};
ghost use Rattle.strand_events.specs.Order.{Set, conflicts};
ghost use Rattle.strand_events.specs.Prefixes.{durable_prefix, made_below};
ghost use Rattle.strand_events.specs.Trace.{core_at, core_event_is, core_of, event_is, is_access, is_persist, same_strand};
ghost use Rattle.strand_events.specs.Vectors.{handed_by_conflicts, waits_after};
ghost use Rattle.strand_events.specs.Waits.{each_core, wait};
ghost use Rattle.strand_tags.specs.declared.core_waits.CoreWaits.{CoreWaits};
ghost use Rattle.strand_tags.specs.Access.{covered};
ghost use Rattle.strand_tags.specs.WaitEntries.{KeepsWaits, wait_entry};
ghost use Rattle.strand_tags.specs.Traces.{access_at, noted_accesses, noted_at, noted_below, waits_by_counts};

/// Why counts of persists tell what waits, for every trace, mode and set of durable persists
/// (docs/tags.md). An access must wait where an earlier access of another strand conflicts with it and
/// some persist of that one's core, at or before it, isn't durable: exactly where for some core it
/// covers more persists than the core's first ones that are all durable (`waits`). Some persist of a
/// core below an end isn't durable exactly where these are fewer than the core made there (`missing`).
/// One event more is noted at the end where it is an access (`access`), and not else (`others`). It
/// changes neither what was noted before it (`before`) nor, while it isn't durable itself, how many of
/// a core's first persists are all durable (`prefix`).
pub fn counts_tell_what_waits()
    ensures waits { (mode : Mode) (t : List Event) (durable : Set) (b : ℕ) → AllFit t
        → event_is is_access t b ≡ true
        → any_below b (λ a. conflicts t a b && not (same_strand mode t a b) && any_below (a + 1)
        (λ p. core_event_is is_persist (core_at t a) t p && not (durable p)))
        ≡ waits_by_counts mode t durable b }
    ensures missing { (t : List Event) (durable : Set) (c end : ℕ) → end ≤ length t
        → any_below end (λ p. core_event_is is_persist c t p && not (durable p))
        ≡ nat_lt (durable_prefix t durable c) (made_below t c end) }
    ensures access { (conflict : Conflict) (mode : Mode) (t : List Event) (e : Event)
        → is_access e ≡ true
        → noted_accesses conflict mode (t ++ e ∷ [])
        ≡ noted_accesses conflict mode t ++ noted_at conflict mode (t ++ e ∷ []) (length t) ∷ [] }
    ensures others { (conflict : Conflict) (mode : Mode) (t : List Event) (e : Event)
        → is_access e ≡ false
        → noted_accesses conflict mode (t ++ e ∷ []) ≡ noted_accesses conflict mode t }
    ensures before { (conflict : Conflict) (mode : Mode) (t : List Event) (e : Event)
        → noted_below conflict mode (t ++ e ∷ []) (length t) ≡ noted_accesses conflict mode t }
    ensures prefix { (t : List Event) (e : Event) (durable : Set) (c : ℕ) → durable (length t) ≡ false
        → durable_prefix (t ++ e ∷ []) durable c ≡ durable_prefix t durable c }
{}

/// How waits are kept, for every trace and mode (docs/tags.md). Where each access is noted with its
/// wait, what an access covers of those noted before it is what the accesses that conflict with it
/// hand on (`conflicts`). What a core keeps of its waits is right for the longer trace once its
/// event and that event's wait have changed it (`own`), and as it is where the event is of another
/// core (`others`). A vector is known by its eight numbers (`vector`).
pub fn waits_are_noted()
    ensures conflicts { (mode : Mode) (t : List Event) (b c : ℕ) → event_is is_access t b ≡ true
        → c < CORE_ROOM
        → handed_by_conflicts mode t c b ≡ covered c (access_at mode t b) (noted_below Tag mode t b) }
    ensures own { (mode : Mode) (t : List Event) (e : Event) (old new : CoreWaits) (w : List ℕ)
        → KeepsWaits mode t (core_of e) old
        → ((c : ℕ) → c < CORE_ROOM → slice_index w c ≡ wait mode (t ++ e ∷ []) c (length t))
        → ((c : ℕ) → c < CORE_ROOM → wait_entry new c ≡ waits_after mode e (slice_index w c) (wait_entry old c))
        → KeepsWaits mode (t ++ e ∷ []) (core_of e) new }
    ensures others { (mode : Mode) (t : List Event) (e : Event) (n : ℕ) (old : CoreWaits)
        → (core_of e == n) ≡ false → KeepsWaits mode t n old → KeepsWaits mode (t ++ e ∷ []) n old }
    ensures vector { (f : ℕ → ℕ) (w : List ℕ) → length w ≡ CORE_ROOM
        → ((c : ℕ) → c < CORE_ROOM → slice_index w c ≡ f c) → w ≡ each_core f }
{}

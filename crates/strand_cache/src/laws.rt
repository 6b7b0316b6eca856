ghost use Rattle.std.specs.Prelude.{◌≡◌, ◌<◌, ◌%◌, ◌==◌, ◌&&◌, not, nat_lt, if◌then◌else◌, ℕ, suc, List, [], ◌∷◌, ◌++◌, length};
ghost use Rattle.std.specs.List.{list_any};
ghost use Rattle.strand_cache.specs.Accesses.{LineAccess, line_at};
ghost use Rattle.strand_cache.specs.Hits.{Shape, hit, is_intact, other_lines, same_set};
ghost use Rattle.strand_cache.specs.Lists.{StandsFor, lines_after};
ghost use Rattle.strand_cache.specs.Totals.{hits_of, misses_of};
ghost use Rattle.strand_base.specs.Counting.{any_below, count_below};

/// The cache rule against lists of lines, for every list of accesses (docs/cache.md). Empty lists stand
/// for no access (`empty`). Where the lists stand for some accesses, one more access hits exactly where
/// its core's list of the set has its line (`hits`), and the lists after the step stand for the longer
/// list (`steps`). The more recent lines of the rule are counted once each (`counted`). An access adds
/// one to its core's hits or misses and to no other count (`hits_rise`, `misses_rise`).
pub fn cache_laws()
    ensures empty { (shape : Shape) (cores : ℕ) (lines : ℕ → ℕ → List ℕ)
        → ((core set : ℕ) → core < cores → set < shape.sets → lines core set ≡ [])
        → StandsFor shape cores lines [] }
    ensures hits { (shape : Shape) (cores : ℕ) (before : ℕ → ℕ → List ℕ) (xs : List LineAccess)
        (x : LineAccess) → 0 < shape.sets → x.core < cores → StandsFor shape cores before xs
        → list_any (λ line. x.line == line) (before x.core (x.line % shape.sets))
        ≡ hit shape (xs ++ x ∷ []) (length xs) }
    ensures steps { (shape : Shape) (cores : ℕ) (before after : ℕ → ℕ → List ℕ)
        (xs : List LineAccess) (x : LineAccess) → 0 < shape.ways → StandsFor shape cores before xs
        → ((core set : ℕ) → core < cores → set < shape.sets
        → after core set ≡ lines_after shape x core set (before core set))
        → StandsFor shape cores after (xs ++ x ∷ []) }
    ensures counted { (shape : Shape) (core line : ℕ) (xs : List LineAccess) (i s bound : ℕ)
        → ((k : ℕ) → line_at xs k < bound)
        → other_lines shape core line xs i s
        ≡ count_below bound (λ other. same_set shape other line && not (other == line)
        && any_below (suc s) (λ k. nat_lt i k && is_intact core other xs (suc s) k)) }
    ensures hits_rise { (shape : Shape) (core : ℕ) (xs : List LineAccess) (x : LineAccess)
        → hits_of shape core (xs ++ x ∷ [])
        ≡ (if (x.core == core) && hit shape (xs ++ x ∷ []) (length xs)
        then suc (hits_of shape core xs) else hits_of shape core xs) }
    ensures misses_rise { (shape : Shape) (core : ℕ) (xs : List LineAccess) (x : LineAccess)
        → misses_of shape core (xs ++ x ∷ [])
        ≡ (if (x.core == core) && not (hit shape (xs ++ x ∷ []) (length xs))
        then suc (misses_of shape core xs) else misses_of shape core xs) }
{}

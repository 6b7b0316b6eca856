ghost use Rattle.std.specs.Prelude.{◌≡◌, ◌≢◌, ◌<◌, ◌≤◌, ◌^◌, ◌∷◌, ◌-◌, length, map, take, true, false, Some, None, ℕ, slice_get, IfSome, IfNone};
ghost use Rattle.std.specs.List.{find};
ghost use Rattle.strand_base.specs.declared.limits.TheConstants.{MOST_WAYS};
ghost use Rattle.strand_exec.specs.Memory.{extents_of, word_in};
ghost use Rattle.strand_exec.specs.Plan.{IsWord};
ghost use Rattle.strand_cache.specs.declared.held_line.HeldLine.{HeldLine};
ghost use Rattle.strand_cache.specs.Copies.{cleaned, is_changed, row_lines, others, row_of};
ghost use Rattle.strand_cache.specs.Accesses.{cache_line_of};
ghost use Rattle.strand_cache.specs.Coherence.{Among, Coheres, Fetched, IsBounded, put_back, IsSetAccess};
ghost use Rattle.strand_cache.specs.Lists.{without_line};

use crate::access::Access;
use crate::backing::{apart, line_words, put_line};
use crate::change::Change;
use crate::held_line::HeldLine;
use crate::lines::LINE_BYTES;
use crate::row::Row;
use strand_exec::FlatMemory;

/// A changed copy of a line that another core holds.
pub(crate) fn changed_elsewhere(rows: &[Row], core: usize, line: u64) -> Option<HeldLine>
    ensures found { IfSome result (λ held. (c : ℕ) × (c < length rows.now) × (c ≢ core)
        × (find (is_changed line) (row_of rows.now c) ≡ Some held)) }
    ensures absent { IfNone result ((c : ℕ) → c < length rows.now → c ≢ core
        → find (is_changed line) (row_of rows.now c) ≡ None) }
{
    for i in 0..rows.len() {
        if i != core {
            let row = &rows[i];
            let held = row.find_changed(line);
            if held.is_some() {
                return held;
            }
        }
    }
    None
}

/// Leaves the copies of a line that other cores hold unchanged.
pub(crate) fn clean_elsewhere(rows: &mut [Row], core: usize, line: u64)
    ensures own { row_of rows.new core ≡ row_of rows.old core }
    ensures cleaned { (c : ℕ) → c < length rows.old → c ≢ core
        → row_of rows.new c ≡ map (cleaned line) (row_of rows.old c) }
{
    for i in 0..rows.len() {
        if i != core {
            let row = &mut rows[i];
            row.clean(line);
        }
    }
}

/// Takes a line from all other cores.
pub(crate) fn drop_elsewhere(rows: &mut [Row], core: usize, line: u64)
    ensures own { row_of rows.new core ≡ row_of rows.old core }
    ensures dropped { (c : ℕ) → c < length rows.old → c ≢ core
        → row_of rows.new c ≡ others line (row_of rows.old c) }
{
    for i in 0..rows.len() {
        if i != core {
            let row = &mut rows[i];
            row.drop_line(line);
        }
    }
}

/// Takes a line's changed words from another core: they are written back, and the other cores' copies
/// are no longer changed ones.
pub(crate) fn recall(rows: &mut [Row], backing: &mut FlatMemory, core: usize, line: u64)
    requires { line < 2 ^ 32 }
    ensures own { row_of rows.new core ≡ row_of rows.old core }
    ensures lines { (c : ℕ) → row_lines (row_of rows.new c) ≡ row_lines (row_of rows.old c) }
    ensures extents { extents_of backing.new ≡ extents_of backing.old }
    ensures words { (word : ℕ) → IsWord (extents_of backing.old) word → cache_line_of word ≢ line
        → word_in backing.new word ≡ word_in backing.old word }
    ensures free { (c : ℕ) (h : HeldLine) → c ≢ core → Among h (row_of rows.new c)
        → is_changed line h ≡ false }
    ensures coheres { (sets ways set : ℕ) (flat : ℕ → ℕ)
        → Coheres (extents_of backing.old) sets ways set rows.old backing.old flat
        → Coheres (extents_of backing.old) sets ways set rows.new backing.new flat }
{
    match changed_elsewhere(rows, core, line) {
        None => {}
        Some(held) => {
            apart(backing);
            put_line(backing, line, &held.words);
            clean_elsewhere(rows, core, line);
        }
    }
}

/// Settles the other cores' copies of a line before an access: none of them is a changed one any more,
/// and a store leaves none.
pub(crate) fn settle(
    rows: &mut [Row],
    backing: &mut FlatMemory,
    core: usize,
    line: u64,
    stores: bool,
)
    requires { line < 2 ^ 32 }
    ensures own { row_of rows.new core ≡ row_of rows.old core }
    ensures loads { stores ≡ false → (c : ℕ) → c ≢ core
        → row_lines (row_of rows.new c) ≡ row_lines (row_of rows.old c) }
    ensures takes { stores ≡ true → (c : ℕ) → c ≢ core
        → row_lines (row_of rows.new c) ≡ without_line line (row_lines (row_of rows.old c)) }
    ensures extents { extents_of backing.new ≡ extents_of backing.old }
    ensures words { (word : ℕ) → IsWord (extents_of backing.old) word → cache_line_of word ≢ line
        → word_in backing.new word ≡ word_in backing.old word }
    ensures free { (c : ℕ) (h : HeldLine) → c ≢ core → Among h (row_of rows.new c)
        → is_changed line h ≡ false }
    ensures absent { stores ≡ true → (c : ℕ) (h : HeldLine) → c ≢ core
        → Among h (row_of rows.new c) → h.line ≡ line → ⊥ }
    ensures coheres { (sets ways set : ℕ) (flat : ℕ → ℕ)
        → Coheres (extents_of backing.old) sets ways set rows.old backing.old flat
        → Coheres (extents_of backing.old) sets ways set rows.new backing.new flat }
{
    recall(rows, backing, core, line);
    if !stores {
        return;
    }
    drop_elsewhere(rows, core, line);
}

/// The copy of a line that a core goes on with: its own, else one with the backing words.
pub(crate) fn fetched(found: Option<HeldLine>, backing: &FlatMemory, line: u64) -> HeldLine
    requires { line < 2 ^ 32 }
    ensures { Fetched line found backing.now result }
{
    match found {
        Some(held) => held,
        None => HeldLine {
            line,
            changed: false,
            words: line_words(backing, line),
        },
    }
}

/// Puts a core's copy of a line in front of its row. The last line past `ways` is written back where it
/// was changed.
pub(crate) fn put_own(row: &mut Row, backing: &mut FlatMemory, held: HeldLine, ways: usize)
    requires some { 0 < ways }
    requires fits { ways ≤ MOST_WAYS }
    requires short { length row.old ≤ ways }
    requires low { (h : HeldLine) → Among h row.old → h.line < 2 ^ 32 }
    ensures row { row.new ≡ take ways (held ∷ others held.line row.old) }
    ensures memory { backing.new
        ≡ put_back (slice_get (others held.line row.old) (ways - 1)) backing.old }
{
    row.drop_line(held.line);
    match row.put(held, ways) {
        None => {}
        Some(last) => {
            if last.changed {
                put_line(backing, last.line, &last.words);
            }
        }
    }
}

/// One access of a core to a word, by the rows of the word's set.
pub(crate) fn access(
    rows: &mut [Row],
    backing: &mut FlatMemory,
    core: usize,
    word: u64,
    ways: usize,
    change: Change,
) -> Access
    requires core { core < length rows.old }
    requires word { IsWord (extents_of backing.old) word }
    requires some { 0 < ways }
    requires fits { ways ≤ MOST_WAYS }
    requires bounded { IsBounded ways rows.old }
    ensures { IsSetAccess core word ways change rows.old rows.new backing.old backing.new result }
{
    apart(backing);
    let line = word / LINE_BYTES;
    let place = (word % LINE_BYTES / 8) as usize;
    settle(rows, backing, core, line, change.stores());
    apart(backing);
    let row = &mut rows[core];
    let found = row.find(line);
    let held = fetched(found, backing, line).after(place, change);
    put_own(row, backing, held, ways);
    Access {
        hit: found.is_some(),
        value: held.words[place],
    }
}

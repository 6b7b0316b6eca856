// Persists by their numbers, and marks on events.
ghost use Rattle.std.specs.Prelude.{◌≡◌, ℕ, ◌<◌, ◌^◌, length, slice_index, IfOk};
ghost use Rattle.strand_base.specs.Counting.{count_below, list_below};
ghost use Rattle.strand_events.specs.Trace.{persists_of};
ghost use Rattle.strand_events.specs.Order.{set_of, sets_word};

use std::alloc::Global;
use strand_base::{Numbers, OutOfMemory};
use strand_events::Event;

/// The event numbers of the persists.
pub fn persists_of(alloc: Global, events: &[Event]) -> Result<Vec<u32>, OutOfMemory>
    requires { length events.now < 2 ^ 32 }
    ensures { IfOk result (λ persists. persists.items ≡ persists_of events.now) }
{
    let mut persists = Vec::new(alloc);
    for k in 0..events.len() {
        if events[k].is_persist() {
            persists.push(k as u32)?;
        }
    }
    Ok(persists)
}

/// The numbers of the marked persists, ascending.
pub(crate) fn numbers_of(
    alloc: Global,
    persists: &[u32],
    marks: &[bool],
) -> Result<Numbers, OutOfMemory>
    requires small { length persists.now < 2 ^ 32 }
    requires within { (p : ℕ) → p < length persists.now → slice_index persists.now p < length marks.now }
    ensures { IfOk result (λ numbers. numbers
        ≡ list_below (length persists.now) (λ p. set_of marks.now (slice_index persists.now p))) }
{
    let mut numbers = Numbers::new(alloc);
    for p in 0..persists.len() {
        if marks[persists[p] as usize] {
            numbers.push(p as u32)?;
        }
    }
    Ok(numbers)
}

// Whether event k is a marked persist to a word.
fn sets_word(events: &[Event], marks: &[bool], word: u64, k: usize) -> bool
    requires k { k < length events.now }
    requires marks { length marks.now ≡ length events.now }
    ensures { result ≡ sets_word events.now (set_of marks.now) word k }
{
    events[k].is_persist() && marks[k] && events[k].word() == word
}

/// How many marked persists there are to a word.
pub(crate) fn rank(events: &[Event], marks: &[bool], word: u64) -> u32
    requires small { length events.now < 2 ^ 32 }
    requires marks { length marks.now ≡ length events.now }
    ensures { result ≡ count_below (length events.now) (sets_word events.now (set_of marks.now) word) }
{
    let mut count: u32 = 0;
    for k in 0..events.len() {
        if sets_word(events, marks, word, k) {
            count += 1;
        }
    }
    count
}

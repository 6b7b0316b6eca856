// The image of the marked persists, and where it differs from what was found.
ghost use Rattle.std.specs.Prelude.{◌≡◌, ◌<◌, ◌&&◌, length, slice_set, if◌then◌else◌, IfOk, MatchOption};
ghost use Rattle.strand_events.specs.Trace.{event_is, is_persist, word_at, value_at};
ghost use Rattle.strand_events.specs.Order.{set_of};
ghost use Rattle.strand_base.specs.Places.{persistent_place};
ghost use Rattle.strand_events.specs.Places.{LieIn};
ghost use Rattle.strand_judge.specs.Images.{IsImageOf, DifferFirst, AreSame};

use std::alloc::Global;
use strand_base::{OutOfMemory, PERSISTENT_BASE};
use strand_events::Event;

/// The place of a persistent word, by its address.
pub fn persistent_place(word: u64) -> usize
    ensures { result ≡ persistent_place word }
{
    (word.saturating_sub(PERSISTENT_BASE) / 8) as usize
}

// Puts the value of event k into its word, where it is a marked persist.
fn put_value(image: &mut Vec<u64>, events: &[Event], marks: &[bool], k: usize)
    requires k { k < length events.now }
    requires marks { length marks.now ≡ length events.now }
    requires within { LieIn events.now (length image.old.items) }
    ensures { image.new.items ≡ (if event_is is_persist events.now k && set_of marks.now k
        then slice_set image.old.items (persistent_place (word_at events.now k)) (value_at events.now k) else image.old.items) }
{
    let event = events[k];
    if event.is_persist() && marks[k] {
        image[persistent_place(event.word())] = event.value();
    }
}

/// The values of the words in the image of the marked persists, where `first` are their initial values.
pub(crate) fn image_of(
    alloc: Global,
    events: &[Event],
    marks: &[bool],
    first: &[u64],
) -> Result<Vec<u64>, OutOfMemory>
    requires marks { length marks.now ≡ length events.now }
    requires within { LieIn events.now (length first.now) }
    ensures { IfOk result (λ image. IsImageOf events.now (set_of marks.now) first.now image.items) }
{
    let mut image = first.to_vec(alloc)?;
    for k in 0..events.len() {
        put_value(&mut image, events, marks, k);
    }
    Ok(image)
}

/// The place of the first difference, if there is one.
pub(crate) fn first_difference(image: &[u64], found: &[u64]) -> Option<usize>
    requires { length image.now ≡ length found.now }
    ensures { MatchOption result (AreSame image.now found.now) (DifferFirst image.now found.now) }
{
    for k in 0..found.len() {
        if image[k] != found[k] {
            return Some(k);
        }
    }
    None
}

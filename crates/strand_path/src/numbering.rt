// The numbers of persists, along events that rise.
ghost use Rattle.std.specs.Prelude.{◌≡◌, ℕ, ◌<◌, ◌≤◌, suc, map, length, slice_index, IfOk};
ghost use Rattle.strand_events.specs.Trace.{persist_number};

use crate::checking::is_persist_at;
use std::alloc::Global;
use strand_base::{Numbers, OutOfMemory};
use strand_events::Event;

/// How many persists come before event `to`, by how many come before an earlier one.
pub(crate) fn number_from(events: &[Event], from: u32, number: u32, to: u32) -> u32
    requires number { number ≡ persist_number events.now from }
    requires rising { from ≤ to }
    requires to { to ≤ length events.now }
    ensures { result ≡ persist_number events.now to }
{
    let mut count = number;
    for k in from as usize..to as usize {
        if is_persist_at(events, k) {
            count += 1;
        }
    }
    count
}

/// The numbers of persists by their events, which rise.
pub(crate) fn numbers_of(
    alloc: Global,
    events: &[Event],
    members: &[u32],
) -> Result<Numbers, OutOfMemory>
    requires within { (k : ℕ) → k < length members.now → slice_index members.now k < length events.now }
    requires rising { (k : ℕ) → suc k < length members.now
        → slice_index members.now k ≤ slice_index members.now (suc k) }
    ensures { IfOk result (λ numbers. numbers ≡ map (persist_number events.now) members.now) }
{
    let mut numbers = Numbers::new(alloc);
    let mut at: u32 = 0;
    let mut number: u32 = 0;
    for member in members {
        number = number_from(events, at, number, *member);
        at = *member;
        numbers.push(number)?;
    }
    Ok(numbers)
}

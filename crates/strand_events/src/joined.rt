ghost use Rattle.std.specs.Prelude.{◌≡◌, ◌^◌, ◌<◌, length, IfOk};
ghost use Rattle.strand_events.specs.Fits.{AllFit};
ghost use Rattle.strand_events.specs.Joins.{AreJoinEnds};
ghost use Rattle.strand_events.specs.Numbers.{numbers_of};
ghost use Rattle.strand_events.specs.Order.{is_joined};
ghost use Rattle.strand_events.specs.Trace.{persists_of};

use crate::event::Event;
use std::alloc::Global;
use strand_base::{CORE_ROOM, Numbers, OutOfMemory};

/// One past the last join of each core, or 0 where it has none.
fn join_ends(events: &[Event]) -> [u32; CORE_ROOM]
    requires fits { AllFit events.now }
    requires small { length events.now < 2 ^ 32 }
    ensures { AreJoinEnds events.now (length events.now) result }
{
    let mut ends = [0; CORE_ROOM];
    for (number, event) in events.iter().enumerate() {
        if let Event::Join { core } = *event {
            ends[core as usize] = number as u32 + 1;
        }
    }
    ends
}

/// The numbers of the persists that come before their core's last join, ascending. `persists` are the
/// event numbers of the persists.
pub(crate) fn joined_numbers(
    alloc: Global,
    events: &[Event],
    persists: &[u32],
) -> Result<Numbers, OutOfMemory>
    requires fits { AllFit events.now }
    requires small { length events.now < 2 ^ 32 }
    requires persists { persists.now ≡ persists_of events.now }
    ensures { IfOk result (λ numbers. numbers ≡ numbers_of events.now (is_joined events.now)) }
{
    let ends = join_ends(events);
    let mut numbers = Numbers::new(alloc);
    for (number, event) in persists.iter().enumerate() {
        let core = events[*event as usize].core() as usize;
        if *event + 1 < ends[core] {
            numbers.push(number as u32)?;
        }
    }
    Ok(numbers)
}

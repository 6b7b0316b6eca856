ghost use Rattle.std.specs.Prelude.{◌≡◌};
ghost use Rattle.strand_events.specs.EventCounts.{CanRise, counts_after, strand_in, epoch_in};

use crate::event::Event;
use strand_inputs::Mode;

/// What a core has made: its accesses, the strands that it began, its barriers and joins, and those
/// of them in the strand that is open.
#[derive(Clone, Copy, Debug, PartialEq, Eq)]
pub(crate) struct EventCounts {
    pub accesses: u32,
    pub strands: u32,
    pub borders: u32,
    pub strand_borders: u32,
}

/// The counts of a core that has made nothing.
pub(crate) const NOTHING_MADE: EventCounts = EventCounts {
    accesses: 0,
    strands: 0,
    borders: 0,
    strand_borders: 0,
};

/// The counts after one more event of the core.
pub(crate) fn counts_after(counts: EventCounts, e: Event) -> EventCounts
    requires { CanRise counts }
    ensures { result ≡ counts_after e counts }
{
    let mut after = counts;
    match e {
        Event::Load { .. } => after.accesses += 1,
        Event::Store { .. } => after.accesses += 1,
        Event::Barrier { .. } | Event::Join { .. } => {
            after.borders += 1;
            after.strand_borders += 1;
        }
        Event::NewStrand { .. } => {
            after.strands += 1;
            after.strand_borders = 0;
        }
        Event::Out { .. } => {}
    }
    after
}

/// The strand of an event before which its core has these counts.
pub(crate) fn strand_in(mode: Mode, counts: EventCounts) -> u32
    ensures { result ≡ strand_in mode counts }
{
    match mode {
        Mode::Strict | Mode::Epoch => 0,
        Mode::Strand => counts.strands,
    }
}

/// The epoch of an event before which its core has these counts.
pub(crate) fn epoch_in(mode: Mode, counts: EventCounts) -> u32
    ensures { result ≡ epoch_in mode counts }
{
    match mode {
        Mode::Strict => counts.accesses,
        Mode::Epoch => counts.borders,
        Mode::Strand => counts.strand_borders,
    }
}

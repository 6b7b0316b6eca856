// Which events a core's queue carries.
ghost use Rattle.std.specs.Prelude.{◌≡◌, ◌<◌, ◌&&◌, ◌==◌};
ghost use Rattle.strand_events.specs.Trace.{core_of, is_access, is_persist};
ghost use Rattle.strand_rules.specs.Cycle.{is_item};

use strand_events::Event;
use strand_inputs::Mode;

/// Whether a core's queue carries the event.
pub fn is_item(mode: Mode, event: Event) -> bool
    ensures { result ≡ is_item mode event }
{
    match mode {
        Mode::Strict => event.is_persist(),
        Mode::Epoch => event.is_persist() || event.is_barrier(),
        Mode::Strand => event.is_persist() || event.is_barrier() || event.is_new_strand(),
    }
}

// Whether the event is an item of core n.
pub(crate) fn is_core_item(mode: Mode, event: Event, n: u32) -> bool
    ensures { result ≡ (is_item mode event && (core_of event == n)) }
{
    is_item(mode, event) && event.core() == n
}

// Whether the event is a persist of core n.
pub(crate) fn is_core_persist(event: Event, n: u32) -> bool
    ensures { result ≡ (is_persist event && (core_of event == n)) }
{
    event.is_persist() && event.core() == n
}

// Whether the event is an access of core n.
pub(crate) fn is_core_access(event: Event, n: u32) -> bool
    ensures { result ≡ (is_access event && (core_of event == n)) }
{
    event.is_access() && event.core() == n
}

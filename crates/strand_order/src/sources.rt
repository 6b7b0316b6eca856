// Where the edges to an event come from, by what its core and its word have seen.
ghost use Rattle.std.specs.Prelude.{◌≡◌};
ghost use Rattle.strand_order.specs.CoreLasts.{begin_in, gate_in};
ghost use Rattle.strand_order.specs.Sources.{single_in, barrier_sources, join_sources, sources_of};
ghost use Rattle.strand_order.specs.Seen.{AreSmall};

use crate::lasts::{CoreLasts, Sources, WordLasts};
use crate::walking::cut;
use strand_events::Event;
use strand_inputs::Mode;

const NO_SOURCES: Sources = Sources {
    last: 0,
    floor: 0,
    single: 0,
};

fn begin_in(mode: Mode, m: CoreLasts) -> u32
    ensures { result ≡ begin_in mode m }
{
    match mode {
        Mode::Strict | Mode::Epoch => 0,
        Mode::Strand => m.begin,
    }
}

fn gate_in(mode: Mode, m: CoreLasts) -> u32
    ensures { result ≡ gate_in mode m }
{
    m.join.max(cut(begin_in(mode, m), m.barrier))
}

fn single_in(mode: Mode, m: CoreLasts) -> u32
    ensures { result ≡ single_in mode m }
{
    match mode {
        Mode::Strict => m.step,
        Mode::Epoch | Mode::Strand => gate_in(mode, m),
    }
}

fn barrier_sources(mode: Mode, m: CoreLasts) -> Sources
    requires { AreSmall m }
    ensures { result ≡ barrier_sources mode m }
{
    match mode {
        Mode::Strict => NO_SOURCES,
        Mode::Epoch | Mode::Strand => Sources {
            last: m.drained,
            floor: begin_in(mode, m).max(gate_in(mode, m)) + 1,
            single: gate_in(mode, m),
        },
    }
}

fn join_sources(mode: Mode, m: CoreLasts) -> Sources
    ensures { result ≡ join_sources mode m }
{
    match mode {
        Mode::Strict => Sources {
            last: 0,
            floor: 0,
            single: m.step,
        },
        Mode::Epoch | Mode::Strand => Sources {
            last: m.drained,
            floor: m.join,
            single: 0,
        },
    }
}

pub(crate) fn sources_of(mode: Mode, e: Event, m: CoreLasts, w: WordLasts) -> Sources
    requires { AreSmall m }
    ensures { result ≡ sources_of mode e m w }
{
    match e {
        Event::Load { .. } => Sources {
            last: w.store,
            floor: w.store,
            single: single_in(mode, m),
        },
        Event::Store { .. } => Sources {
            last: w.access,
            floor: w.store,
            single: single_in(mode, m),
        },
        Event::Barrier { .. } => barrier_sources(mode, m),
        Event::Join { .. } => join_sources(mode, m),
        Event::NewStrand { .. } | Event::Out { .. } => NO_SOURCES,
    }
}

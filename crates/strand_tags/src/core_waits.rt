ghost use Rattle.std.specs.Prelude.{◌≡◌, ◌<◌, ◌-◌, ◌^◌, ◌==◌, ℕ, [], slice_index};
ghost use Rattle.strand_base.specs.declared.limits.TheConstants.{CORE_ROOM};
ghost use Rattle.strand_inputs.specs.declared.mode.Mode.{Mode};
ghost use Rattle.strand_events.specs.Vectors.{next_by_order, waits_after};
ghost use Rattle.strand_tags.specs.WaitEntries.{KeepsWaits, wait_entry, no_waits};

use crate::count_vector::{CountVector, NO_COUNTS};
use strand_events::Event;
use strand_inputs::Mode;

/// What a core keeps of the waits of its accesses, by which its next access is made to wait: the
/// greatest number at each core, over four sets of its accesses, and three counts of its persists.
#[derive(Clone, Copy, Debug, PartialEq, Eq)]
pub struct CoreWaits {
    /// Of all its accesses.
    pub all: CountVector,
    /// Of those of its current strand.
    pub current: CountVector,
    /// Of those of its current strand that a barrier came after.
    pub fenced: CountVector,
    /// Of those before its last join.
    pub joined: CountVector,
    /// How many persists it has made.
    pub made: u32,
    /// How many it had made at its last join.
    pub made_joined: u32,
    /// How many it had made when its current strand began.
    pub made_begun: u32,
}

impl CoreWaits {
    /// What a core keeps that has made nothing.
    pub fn new() -> CoreWaits
        ensures empty { result ≡ no_waits }
        ensures keeps { (mode : Mode) (n : ℕ) → KeepsWaits mode [] n result }
    {
        CoreWaits {
            all: NO_COUNTS,
            current: NO_COUNTS,
            fenced: NO_COUNTS,
            joined: NO_COUNTS,
            made: 0,
            made_joined: 0,
            made_begun: 0,
        }
    }

    /// What it keeps after one more event of the core. The wait is the event's, and counts only
    /// where that is an access.
    pub fn after(&self, mode: Mode, e: Event, wait: &CountVector) -> CoreWaits
        requires { self.now.made < 2 ^ 32 - 1 }
        ensures { (c : ℕ) → c < CORE_ROOM
            → wait_entry result c
            ≡ waits_after mode e (slice_index wait.now.counts c) (wait_entry self.now c) }
    {
        let mut next = *self;
        match e {
            Event::Load { .. } => {
                next.all = wait.greater(&self.all);
                next.current = wait.greater(&self.current);
            }
            Event::Store { persist, .. } => {
                next.all = wait.greater(&self.all);
                next.current = wait.greater(&self.current);
                if persist {
                    next.made += 1;
                }
            }
            Event::Barrier { .. } => next.fenced = self.current,
            Event::Join { .. } => {
                next.joined = self.all;
                next.made_joined = self.made;
            }
            Event::NewStrand { .. } => {
                if let Mode::Strand = mode {
                    next.current = NO_COUNTS;
                    next.fenced = NO_COUNTS;
                    next.made_begun = self.made;
                }
            }
            Event::Out { .. } => {}
        }
        next
    }

    /// What the core's own order hands on to its next access, where it is core `own`.
    pub fn by_order(&self, mode: Mode, own: u32) -> CountVector
        requires { own < CORE_ROOM }
        ensures { (c : ℕ) → c < CORE_ROOM
            → slice_index result.counts c ≡ next_by_order mode (c == own) (wait_entry self.now c) }
    {
        match mode {
            Mode::Strict => self.all,
            Mode::Epoch => self.joined.greater(&self.fenced),
            Mode::Strand => {
                let mut counts = self.joined.greater(&self.fenced).counts;
                let made = self.made_joined.min(self.made_begun);
                counts[own as usize] = counts[own as usize].max(made);
                CountVector { counts }
            }
        }
    }
}

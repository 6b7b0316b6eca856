ghost use Rattle.std.specs.Prelude.{◌≡◌, ◌^◌, ◌<◌, ◌≤◌, [], ◌∷◌, ◌++◌, length, slice_get, Some, IfOk, if◌then◌else◌, vec_len, vec_capacity};
ghost use Rattle.strand_base.specs.declared.limits.TheConstants.{CORE_ROOM};
ghost use Rattle.strand_events.specs.Trace.{core_of, epoch, is_persist, persists_of, strand_number};
ghost use Rattle.strand_events.specs.Fits.{KindIsRight, AllFit};
ghost use Rattle.strand_events.specs.Numbers.{numbers_of};
ghost use Rattle.strand_events.specs.Order.{is_joined};

use crate::event::Event;
use crate::event_counts::{EventCounts, NOTHING_MADE, counts_after, epoch_in, strand_in};
use crate::joined::joined_numbers;
use std::alloc::Global;
use std::marker::Model;
use strand_base::{CORE_ROOM, Numbers, OutOfMemory};
use strand_inputs::Mode;

/// The events of a run, the oldest first, in room that was taken at the start. An event is named by
/// its place, and so is a persist among the persists. Beside each event stands what its core had made
/// before it, so that strands and epochs are numbered without looking back.
#[derive(Debug, Drop)]
pub struct Trace {
    events: Vec<Event>,
    persists: Vec<u32>,
    counts: Vec<EventCounts>,
    latest: [EventCounts; CORE_ROOM],
    room: usize,
}

impl Model for Trace {
    ghost use Rattle.strand_events.specs.TraceSeen.{TraceSeen};

    ghost Value = { TraceSeen };

    ghost use Rattle.std.specs.Prelude.{◌≤◌, vec_capacity};
    ghost use Rattle.strand_events.specs.TraceSeen.{IsKeptTrace};

    ghost view = { λ t. record { events = t.events.items; room = t.room } };

    ghost invariant = { λ t. IsKeptTrace t.events.items t.room t.persists.items t.counts.items
        t.latest
        × (t.room ≤ vec_capacity t.events) × (t.room ≤ vec_capacity t.persists) × (t.room ≤ vec_capacity t.counts) };
}

impl Trace {
    /// An empty trace with room for so many events. It takes all the memory that the trace will need.
    pub fn new(alloc: Global, room: usize) -> Result<Trace, OutOfMemory>
        requires { room < 2 ^ 32 }
        ensures empty { IfOk result (λ t. t.events ≡ []) }
        ensures room { IfOk result (λ t. t.room ≡ room) }
    {
        Ok(Trace {
            events: Vec::with_capacity(alloc, room)?,
            persists: Vec::with_capacity(alloc, room)?,
            counts: Vec::with_capacity(alloc, room)?,
            latest: [NOTHING_MADE; CORE_ROOM],
            room,
        })
    }

    /// The events, the oldest first.
    pub fn events(&self) -> &[Event]
        ensures events { result.now ≡ self.now.events }
        ensures within { length self.now.events ≤ self.now.room }
        ensures small { self.now.room < 2 ^ 32 }
        ensures fits { AllFit self.now.events }
    {
        &self.events
    }

    /// How many events there is room for.
    pub fn room(&self) -> usize
        ensures { result ≡ self.now.room }
    {
        self.room
    }

    /// How many of the events are persists.
    pub fn persists(&self) -> u32
        ensures { result ≡ length (persists_of self.now.events) }
    {
        self.persists.len() as u32
    }

    /// The event number of a persist.
    pub fn persist_at(&self, p: u32) -> usize
        requires { p < length (persists_of self.now.events) }
        ensures { slice_get (persists_of self.now.events) p ≡ Some result }
    {
        self.persists[p as usize] as usize
    }

    /// The strand of an event, a number among the strands of its core. It takes no memory and constant
    /// time.
    pub fn strand_of(&self, mode: Mode, event: usize) -> u32
        requires { event < length self.now.events }
        ensures { result ≡ strand_number mode self.now.events event }
    {
        strand_in(mode, self.counts[event])
    }

    /// The epoch of an event, a number within its strand. It takes no memory and constant time.
    #[tactic(auto, using(crate::proofs::StrandAndEpoch::epoch_counted))]
    pub fn epoch_of(&self, mode: Mode, event: usize) -> u32
        requires { event < length self.now.events }
        ensures { result ≡ epoch mode self.now.events event }
    {
        epoch_in(mode, self.counts[event])
    }

    /// The numbers of the persists that some core made before its own last join, ascending. It takes
    /// memory for the list alone, and time linear in the events.
    pub fn joined(&self) -> Result<Numbers, OutOfMemory>
        ensures { IfOk result (λ numbers. numbers ≡ numbers_of self.now.events (is_joined self.now.events)) }
    {
        let alloc = *self.events.allocator();
        joined_numbers(alloc, &self.events, &self.persists)
    }

    /// Puts an event at the end. It takes no memory.
    pub fn push(&mut self, e: Event)
        requires room { length self.old.events < self.old.room }
        requires core { core_of e < CORE_ROOM }
        requires persist { KindIsRight e }
        ensures events { self.new.events ≡ self.old.events ++ e ∷ [] }
        ensures room { self.new.room ≡ self.old.room }
    {
        let core = e.core() as usize;
        let counts = self.latest[core];
        let number = self.events.len() as u32;
        note_persist(&mut self.persists, e, number);
        self.counts.push_reserved(counts);
        self.latest[core] = counts_after(counts, e);
        self.events.push_reserved(e);
    }
}

/// Notes the number of an event that is a persist.
fn note_persist(persists: &mut Vec<u32>, e: Event, number: u32)
    requires { vec_len persists.old < vec_capacity persists.old }
    ensures items { persists.new.items ≡ (if is_persist e then persists.old.items ++ number ∷ [] else persists.old.items) }
    ensures capacity { vec_capacity persists.new ≡ vec_capacity persists.old }
{
    if e.is_persist() {
        persists.push_reserved(number);
    }
}

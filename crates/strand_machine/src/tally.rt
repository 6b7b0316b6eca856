ghost use Rattle.std.specs.Prelude.{◌≡◌, ◌<◌, ◌≤◌, ◌-◌, ◌^◌, ℕ, IfOk, length, slice_get, slice_index};
ghost use Rattle.strand_base.specs.declared.limits.TheConstants.{CORE_ROOM};
ghost use Rattle.strand_events.specs.Order.{set_of};
ghost use Rattle.strand_events.specs.Vectors.{waits_after};
ghost use Rattle.strand_tags.specs.WaitEntries.{wait_entry};
ghost use Rattle.strand_machine.specs.Changed.{advanced, durable_first, empty_tally, is_marked, tallied};

use std::alloc::Global;
use std::marker::Model;
use strand_base::OutOfMemory;
use strand_events::Event;
use strand_inputs::Mode;
use strand_queue::Item;
use strand_tags::{CoreWaits, CountVector};

// What is counted of a core: its persists and how many of the first are all durable, the strands that it
// began, and what it keeps of the waits of its accesses.
#[derive(Drop)]
pub(crate) struct CoreTally {
    numbers: Vec<u32>,
    first: u32,
    strand: u32,
    waits: CoreWaits,
    room: u32,
}

impl Model for CoreTally {
    ghost use Rattle.strand_machine.specs.Stand.{Tally};

    ghost Value = { Tally };

    ghost use Rattle.std.specs.Prelude.{◌≤◌, length, vec_capacity};
    ghost use Rattle.strand_machine.specs.KeptTally.{tally_of};

    ghost view = { tally_of };

    ghost invariant = { λ c. (length c.numbers.items ≤ c.room) × (c.room ≤ vec_capacity c.numbers) };
}

impl CoreTally {
    // Nothing is counted yet. There is room for so many persists.
    pub fn new(alloc: Global, room: u32) -> Result<CoreTally, OutOfMemory>
        ensures { IfOk result (λ c. c ≡ empty_tally room) }
    {
        Ok(CoreTally {
            numbers: Vec::with_capacity(alloc, room as usize)?,
            first: 0,
            strand: 0,
            waits: CoreWaits::new(),
            room,
        })
    }

    // How many persists the core made.
    pub fn made(&self) -> u32
        ensures made { result ≡ length self.now.numbers }
        ensures within { length self.now.numbers ≤ self.now.room }
    {
        let _room = self.room;
        self.numbers.len() as u32
    }

    // How many of its first persists are all durable.
    pub fn first(&self) -> u32
        ensures { result ≡ self.now.first }
    {
        self.first
    }

    // The number of the strand that its next event is of.
    pub fn strand(&self) -> u32
        ensures { result ≡ self.now.strand }
    {
        self.strand
    }

    // What it keeps of the waits of its accesses.
    pub fn waits(&self) -> &CoreWaits
        ensures { result.now ≡ self.now.waits }
    {
        &self.waits
    }

    // The core made an event with this wait.
    pub fn follow(&mut self, mode: Mode, event: Event, wait: &CountVector)
        requires { self.old.waits.made < 2 ^ 32 - 1 }
        ensures own { (c : ℕ) → c < CORE_ROOM → wait_entry self.new.waits c
            ≡ waits_after mode event (slice_index wait.now.counts c) (wait_entry self.old.waits c) }
        ensures others { self.new ≡ record self.old { waits = self.new.waits } }
    {
        self.waits = self.waits.after(mode, event, wait);
    }

    // The core made an item.
    pub fn note(&mut self, item: Item)
        requires room { length self.old.numbers < self.old.room }
        requires strand { self.old.strand < 2 ^ 32 - 1 }
        ensures { self.new ≡ tallied self.old item }
    {
        match item {
            Item::Persist { number, .. } => self.numbers.push_reserved(number),
            Item::Barrier => {}
            Item::NewStrand => self.strand += 1,
        }
    }

    // Tells which persists are durable, by their numbers. Over a run the calls go over the core's persists
    // once.
    pub fn advance(&mut self, durable: &[bool])
        requires { self.old.first ≤ durable_first durable.now self.old.numbers }
        ensures { self.new ≡ advanced self.old durable.now }
    {
        self.first = durable_from(&self.numbers, durable, self.first);
    }
}

// How many of the persists with these numbers are durable before the first that isn't, of which so many
// are known to be.
fn durable_from(numbers: &[u32], durable: &[bool], known: u32) -> u32
    requires known { known ≤ durable_first durable.now numbers.now }
    requires few { length numbers.now < 2 ^ 32 }
    ensures { result ≡ durable_first durable.now numbers.now }
{
    let mut count = known;
    while is_durable(numbers, durable, count) {
        count += 1;
    }
    count
}

// Whether there is a number at a place, and the persist of this number is durable.
fn is_durable(numbers: &[u32], durable: &[bool], place: u32) -> bool
    ensures { result ≡ is_marked durable.now (slice_get numbers.now place) }
{
    match numbers.get(place as usize) {
        Some(number) => is_set(durable, *number),
        None => false,
    }
}

// Whether a mark is there and set.
fn is_set(marks: &[bool], place: u32) -> bool
    ensures { result ≡ set_of marks.now place }
{
    (place as usize) < marks.len() && marks[place as usize]
}

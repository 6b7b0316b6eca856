ghost use Rattle.std.specs.Prelude.{◌≡◌, ◌<◌, ◌≤◌, ◌^◌, ◌-◌, true, false, IfSome, length, slice_index};
ghost use Rattle.strand_buffer.specs.Buffers.{IsEligible, IsSent};
ghost use Rattle.strand_control.specs.Flight.{LieInBank, Writes};
ghost use Rattle.strand_events.specs.Trace.{is_access, is_persist, is_store, word_of};
ghost use Rattle.strand_exec.specs.Memory.{extents_of};
ghost use Rattle.strand_exec.specs.Plan.{IsPlaced};
ghost use Rattle.strand_rules.specs.Pipeline.{overwritten};
ghost use Rattle.strand_rules.specs.Visible.{loaded};
ghost use Rattle.strand_tags.specs.Access.{access, noted_as};
ghost use Rattle.strand_tags.specs.TagsSeen.{CanAsk};
ghost use Rattle.strand_machine.specs.Changed.{CanQueue, CanTake, GoesThrough, HasWait, KeepsWait, Notes, durable_first, taken, wait_at, with_dispatched, with_made, with_sent, with_written};
ghost use Rattle.strand_machine.specs.Stand.{buffers_at, prefixes, queue_at, tally_at};
ghost use Rattle.strand_inputs.specs.declared.conflict.Conflict.TheVariants.{Tag};
ghost use Rattle.strand_modules.specs.Seen.{bank_seen};

use crate::tally::CoreTally;
use crate::waiting::Waiting;
use std::marker::Model;
use strand_base::CORE_ROOM;
use strand_buffer::StrandBuffers;
use strand_cache::{Change, Hierarchy};
use strand_control::{Controller, Request, WriteTurn};
use strand_events::Event;
use strand_exec::Plan;
use strand_inputs::{Config, Conflict};
use strand_modules::ModuleBank;
use strand_queue::{Item, PersistQueue};
use strand_tags::{CountVector, Tags};

// The queue and the buffers of each core, the tags, the controller, what is counted of each core, the
// waits of the persists, and the caches.
#[derive(Drop)]
pub(crate) struct Parts {
    pub(crate) queues: Vec<PersistQueue>,
    pub(crate) buffers: Vec<StrandBuffers>,
    pub(crate) tags: Tags,
    pub(crate) control: Controller,
    pub(crate) tallies: Vec<CoreTally>,
    pub(crate) waiting: Waiting,
    pub(crate) cache: Hierarchy,
}

impl Model for Parts {
    ghost use Rattle.strand_machine.specs.Stand.{PartsSeen};

    ghost Value = { PartsSeen };

    ghost use Rattle.strand_machine.specs.KeptParts.{parts_seen};

    ghost view = { parts_seen };
}

impl Parts {
    // The queue of core n.
    pub fn queue(&self, n: u32) -> &PersistQueue
        requires { n < length self.now.queues }
        ensures { result.now ≡ queue_at self.now n }
    {
        &self.queues[n as usize]
    }

    // The strand buffers of core n.
    pub fn buffers(&self, n: u32) -> &StrandBuffers
        requires { n < length self.now.buffers }
        ensures { result.now ≡ buffers_at self.now n }
    {
        &self.buffers[n as usize]
    }

    // What is counted of core n.
    pub fn tally(&self, n: u32) -> &CoreTally
        requires { n < length self.now.tallies }
        ensures { result.now ≡ tally_at self.now n }
    {
        &self.tallies[n as usize]
    }

    // The conflict tags.
    pub fn tags(&self) -> &Tags
        ensures { result.now ≡ self.now.tags }
    {
        &self.tags
    }

    // The requests in flight.
    pub fn control(&self) -> &Controller
        ensures { result.now ≡ self.now.control }
    {
        &self.control
    }

    // The caches.
    pub fn cache(&self) -> &Hierarchy
        ensures { result.now ≡ self.now.cache }
    {
        &self.cache
    }

    // The word that an instruction with this plan overwrites, where it stores.
    pub fn overwritten(&self, plan: Plan) -> u64
        requires { IsPlaced (extents_of self.now.cache.memory) plan }
        ensures { result ≡ overwritten self.now.cache.memory plan }
    {
        match plan {
            Plan::Store { word, .. } => self.cache.word(word),
            _ => 0,
        }
    }

    // Core n's instruction goes through the caches where it reads or writes a word; the word that it loads.
    pub fn access(&mut self, n: u32, plan: Plan) -> u64
        requires core { n < self.old.cache.cores }
        requires placed { IsPlaced (extents_of self.old.cache.memory) plan }
        ensures loaded { result ≡ loaded self.old.cache.memory plan }
        ensures cache { GoesThrough self.old.cache self.new.cache n plan }
        ensures extents { extents_of self.new.cache.memory ≡ extents_of self.old.cache.memory }
        ensures others { self.new ≡ record self.old { cache = self.new.cache } }
    {
        match plan {
            Plan::Load { word } => self.cache.access(n, word, Change::Read).value,
            Plan::Store { word, mask, bits } => {
                self.cache.access(n, word, Change::Merge { mask, bits });
                0
            }
            _ => 0,
        }
    }

    // Core n made an event, which this item stands for if any does.
    pub fn enqueue(&mut self, n: u32, item: Option<Item>)
        requires queue { n < length self.old.queues }
        requires tally { n < length self.old.tallies }
        requires room { IfSome item (λ i. CanQueue (queue_at self.old n) (tally_at self.old n)) }
        ensures { self.new ≡ with_made self.old n item }
    {
        let Some(item) = item else {
            return;
        };
        let queue = &mut self.queues[n as usize];
        queue.push(item);
        let tally = &mut self.tallies[n as usize];
        tally.note(item);
    }

    // Core n made an event: the tags note it where it is an access.
    pub fn note_access(&mut self, n: u32, event: Event, wait: &CountVector)
        requires tally { n < length self.old.tallies }
        requires access { is_access event ≡ true → CanAsk self.old.tags
            (access n (tally_at self.old n).strand (word_of event) (is_store event)) }
        requires made { is_access event ≡ true
            → slice_index self.old.tags.made n ≤ length (tally_at self.old n).numbers }
        ensures noted { is_access event ≡ true → Notes self.old.tags self.new.tags
            (noted_as (access n (tally_at self.old n).strand (word_of event) (is_store event))
            (length (tally_at self.old n).numbers) wait.now.counts) }
        ensures same { is_access event ≡ false → self.new.tags ≡ self.old.tags }
        ensures others { self.new ≡ record self.old { tags = self.new.tags } }
    {
        if event.is_access() {
            let tally = &self.tallies[n as usize];
            let strand = tally.strand();
            let made = tally.made();
            self.tags
                .note(n, strand, event.word(), event.is_store(), made, wait);
        }
    }

    // Core n made an event with this wait, which is kept where it is a persist, and under tag by the core.
    pub fn note_wait(&mut self, n: u32, config: Config, event: Event, wait: &CountVector)
        requires tally { n < length self.old.tallies }
        requires room { is_persist event ≡ true → length self.old.waiting.waits < self.old.waiting.room }
        requires made { config.conflict ≡ Tag → (tally_at self.old n).waits.made < 2 ^ 32 - 1 }
        ensures kept { KeepsWait config self.old self.new n event wait.now.counts }
        ensures others { self.new ≡ record self.old { waiting = self.new.waiting; tallies = self.new.tallies } }
    {
        if event.is_persist() {
            self.waiting.push(wait.counts);
        }
        if let Conflict::Tag = config.conflict {
            let tally = &mut self.tallies[n as usize];
            tally.follow(config.mode, event, wait);
        }
    }

    // How many of core c's first persists are all durable, 0 where there is no such core.
    fn prefix(&self, c: usize) -> u32
        ensures { result ≡ (tally_at self.now c).first }
    {
        match self.tallies.get(c) {
            Some(tally) => tally.first(),
            None => 0,
        }
    }

    // The same of each of eight cores.
    pub fn prefixes(&self) -> [u32; CORE_ROOM]
        ensures { result ≡ prefixes self.now }
    {
        [
            self.prefix(0),
            self.prefix(1),
            self.prefix(2),
            self.prefix(3),
            self.prefix(4),
            self.prefix(5),
            self.prefix(6),
            self.prefix(7),
        ]
    }

    // The wait that is kept of an item, where it is a persist.
    fn wait_at(&self, item: Item) -> [u32; CORE_ROOM]
        requires { HasWait self.now item }
        ensures { result ≡ wait_at self.now item }
    {
        match item {
            Item::Persist { number, .. } => self.waiting.at(number),
            Item::Barrier | Item::NewStrand => [0; CORE_ROOM],
        }
    }

    // Core n dispatches this item, the first of its queue.
    pub fn dispatch(&mut self, n: u32, item: Item)
        requires queue { n < length self.old.queues }
        requires buffers { n < length self.old.buffers }
        requires take { CanTake (buffers_at self.old n) item }
        requires wait { HasWait self.old item }
        ensures { self.new ≡ with_dispatched self.old n item }
    {
        let wait = self.wait_at(item);
        let queue = &mut self.queues[n as usize];
        queue.pop();
        let buffers = &mut self.buffers[n as usize];
        take(buffers, item, wait);
    }

    // A buffer's persist is sent.
    pub fn send(&mut self, r: Request)
        requires core { r.core < length self.old.buffers }
        requires eligible { IsEligible (buffers_at self.old r.core) r.buffer r.number
            (prefixes self.old) }
        requires room { length self.old.control.requests < self.old.control.limit }
        ensures { self.new ≡ with_sent self.old r }
    {
        let durable = self.prefixes();
        let buffers = &mut self.buffers[r.core as usize];
        buffers.sent(r.buffer, r.number, &durable);
        self.control.accept(r);
    }

    // The controller writes the request at place j into the bank.
    pub fn write(&mut self, j: u32, bank: &mut ModuleBank) -> WriteTurn
        requires { LieInBank self.old.control.requests (bank_seen holds bank.old).size }
        ensures control { Writes self.old.control self.new.control (bank_seen holds bank.old) (bank_seen holds bank.new) j result }
        ensures others { self.new ≡ record self.old { control = self.new.control } }
    {
        self.control.write(j, bank)
    }

    // The request was written, and these persists are durable now, by their numbers.
    pub fn release(&mut self, r: Request, durable: &[bool])
        requires buffers { r.core < length self.old.buffers }
        requires tallies { r.core < length self.old.tallies }
        requires sent { IsSent (buffers_at self.old r.core) r.buffer r.number }
        requires known { (tally_at self.old r.core).first
            ≤ durable_first durable.now (tally_at self.old r.core).numbers }
        ensures { self.new ≡ with_written self.old r durable.now }
    {
        let buffers = &mut self.buffers[r.core as usize];
        buffers.release(r.buffer, r.number);
        let tally = &mut self.tallies[r.core as usize];
        tally.advance(durable);
    }
}

// A core's buffers take an item that it dispatches, a persist with this wait.
fn take(buffers: &mut StrandBuffers, item: Item, wait: [u32; CORE_ROOM])
    requires { CanTake buffers.old item }
    ensures { buffers.new ≡ taken buffers.old item wait }
{
    match item {
        Item::Persist {
            number,
            word,
            value,
            epoch,
        } => buffers.accept(number, word, value, epoch, wait),
        Item::Barrier => {}
        Item::NewStrand => buffers.begin(),
    }
}

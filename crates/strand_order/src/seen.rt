// What is kept of the events so far.
ghost use Rattle.strand_events.specs.declared.event.Event.{Event};
ghost use Rattle.std.specs.Prelude.{◌≡◌, ℕ, List, suc, ◌+◌, ◌<◌, ◌-◌, ◌^◌, slice_get, Some, if◌then◌else◌, OnOk};
ghost use Rattle.std.specs.Ordering.{nat_cmp};
ghost use Rattle.std.specs.BTreeMap.{get};
ghost use Rattle.strand_base.specs.declared.limits.TheConstants.{CORE_ROOM};
ghost use Rattle.strand_events.specs.Trace.{core_of};
ghost use Rattle.strand_order.specs.Graph.{access_or_join, drained_by};
ghost use Rattle.strand_order.specs.CoreLasts.{lasts_after};
ghost use Rattle.strand_order.specs.Seen.{lasts_in, word_lasts_after, IsSeen};

use crate::lasts::{CoreLasts, WordLasts};
use std::alloc::Global;
use std::collections::BTreeMap;
use strand_base::{CORE_ROOM, OutOfMemory};
use strand_events::Event;

/// The last events of the cores and of the words, and links back along the accesses of each word and along the
/// accesses, barriers and joins of each core.
#[derive(Drop)]
pub(crate) struct Seen {
    pub(crate) cores: [CoreLasts; CORE_ROOM],
    words: BTreeMap<u64, WordLasts>,
    pub(crate) word_links: Vec<u32>,
    pub(crate) core_links: Vec<u32>,
}

const NO_LASTS: CoreLasts = CoreLasts {
    step: 0,
    drained: 0,
    barrier: 0,
    begin: 0,
    join: 0,
};

const NO_WORD_LASTS: WordLasts = WordLasts {
    access: 0,
    store: 0,
};

pub(crate) fn access_or_join(event: Event) -> bool
    ensures { result ≡ access_or_join event }
{
    event.is_access() || event.is_join()
}

pub(crate) fn drained_by(event: Event) -> bool
    ensures { result ≡ drained_by event }
{
    event.is_access() || event.is_barrier() || event.is_join()
}

fn later(passes: bool, n: u32, last: u32) -> u32
    requires { n < 2 ^ 32 - 1 }
    ensures { result ≡ (if passes then suc n else last) }
{
    if passes { n + 1 } else { last }
}

// The core's last events after event n.
fn lasts_after(e: Event, n: u32, m: CoreLasts) -> CoreLasts
    requires { n < 2 ^ 32 - 1 }
    ensures { result ≡ lasts_after e n m }
{
    CoreLasts {
        step: later(access_or_join(e), n, m.step),
        drained: later(drained_by(e), n, m.drained),
        barrier: later(e.is_barrier(), n, m.barrier),
        begin: later(e.is_new_strand(), n, m.begin),
        join: later(e.is_join(), n, m.join),
    }
}

pub(crate) fn lasts_in(words: &BTreeMap<u64, WordLasts>, word: u64) -> WordLasts
    ensures { result ≡ lasts_in (get nat_cmp words.now word) }
{
    match words.get(&word) {
        Some(lasts) => *lasts,
        None => NO_WORD_LASTS,
    }
}

// Notes event n at its word.
fn note_word(words: &mut BTreeMap<u64, WordLasts>, e: Event, n: u32) -> Result<(), OutOfMemory>
    requires { n < 2 ^ 32 - 1 }
    ensures { OnOk result ((word : ℕ) → lasts_in (get nat_cmp words.new word)
        ≡ word_lasts_after e n word (lasts_in (get nat_cmp words.old word))) }
{
    if e.is_access() {
        let seen = lasts_in(words, e.word());
        let store = later(e.is_store(), n, seen.store);
        words.insert(
            e.word(),
            WordLasts {
                access: n + 1,
                store,
            },
        )?;
    }
    Ok(())
}

// A link for those that pass.
fn link(passes: bool, last: u32) -> u32
    ensures { result ≡ (if passes then last else 0) }
{
    if passes { last } else { 0 }
}

impl Seen {
    pub(crate) fn new(alloc: Global) -> Seen
        ensures { (t : List Event) → IsSeen t 0 result }
    {
        Seen {
            cores: [NO_LASTS; CORE_ROOM],
            words: BTreeMap::new(alloc),
            word_links: Vec::new(alloc),
            core_links: Vec::new(alloc),
        }
    }

    pub(crate) fn word(&self, word: u64) -> WordLasts
        ensures { result ≡ lasts_in (get nat_cmp self.now.words word) }
    {
        lasts_in(&self.words, word)
    }

    /// Notes event n.
    pub(crate) fn note(&mut self, e: Event, n: u32) -> Result<(), OutOfMemory>
        requires core { core_of e < CORE_ROOM }
        requires small { n < 2 ^ 32 - 1 }
        ensures { OnOk result ((t : List Event) → slice_get t n ≡ Some e → IsSeen t n self.old
            → IsSeen t (suc n) self.new) }
    {
        let core = self.cores[e.core() as usize];
        let word = lasts_in(&self.words, e.word());
        self.word_links.push(link(e.is_access(), word.access))?;
        self.core_links.push(link(drained_by(e), core.drained))?;
        self.cores[e.core() as usize] = lasts_after(e, n, core);
        note_word(&mut self.words, e, n)?;
        Ok(())
    }
}

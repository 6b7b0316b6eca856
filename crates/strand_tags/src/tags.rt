ghost use Rattle.std.specs.Prelude.{◌≡◌, ◌<◌, ◌≤◌, ◌++◌, [], ◌∷◌, ℕ, IfOk, List, length, replicate, slice_index, slice_index_or, slice_set, if◌then◌else◌};
ghost use Rattle.strand_base.specs.declared.limits.TheConstants.{CORE_ROOM};
ghost use Rattle.strand_exec.specs.Plan.{IsWord};
ghost use Rattle.strand_tags.specs.Access.{Access, access, covered, noted_as, Noted};
ghost use Rattle.strand_tags.specs.Greater.{greater, no_counts, vector};
ghost use Rattle.strand_tags.specs.WordTags.{tag_after, no_tag};
ghost use Rattle.strand_tags.specs.TagsSeen.{answer, CanAsk, conflicting_wait, made_opposing, slot, StandFor, word_place};

use crate::count_vector::{CountVector, NO_COUNTS};
use crate::word_tag::{NO_TAG, WordTag};
use std::alloc::Global;
use std::marker::Model;
use strand_base::{OutOfMemory, PERSISTENT_BASE, VOLATILE_BASE};
use strand_exec::Sizes;

/// What the accesses that were noted make a later access wait for. Up to eight cores access the
/// data words of the two regions. The tags keep no list of the accesses: two tags of 12 bytes a
/// word and core, two vectors of waits of 32 bytes a word, whose room `new` takes, and per core the
/// latest strand and how many persists it had made.
#[derive(Debug, Drop)]
pub struct Tags {
    sizes: Sizes,
    strands: Vec<u32>,
    made: Vec<u32>,
    stores: Vec<WordTag>,
    accesses: Vec<WordTag>,
    store_waits: Vec<CountVector>,
    access_waits: Vec<CountVector>,
}

impl Model for Tags {
    ghost use Rattle.strand_tags.specs.TagsSeen.{TagsSeen, AreKept};

    ghost Value = { TagsSeen };

    ghost use Rattle.strand_tags.specs.Kept.{seen};

    ghost view = { seen };

    ghost invariant = { λ t. AreKept (seen t) };
}

impl Tags {
    /// The tags of so many cores and of the words of the regions, with no access noted. Only this
    /// call takes memory: 24 bytes for each word and core, 64 a word, and eight a core.
    pub fn new(alloc: Global, cores: u32, sizes: Sizes) -> Result<Tags, OutOfMemory>
        requires { cores ≤ CORE_ROOM }
        ensures extents { IfOk result (λ t. t.extents ≡ sizes) }
        ensures strands { IfOk result (λ t. t.strands ≡ replicate cores 0) }
        ensures made { IfOk result (λ t. t.made ≡ replicate cores 0) }
        ensures stands { IfOk result (λ t. StandFor t []) }
    {
        let words = sizes.volatile as usize + sizes.persistent as usize;
        let count = words * cores as usize;
        Ok(Tags {
            sizes,
            strands: zeros(alloc, cores)?,
            made: zeros(alloc, cores)?,
            stores: no_tags(alloc, count)?,
            accesses: no_tags(alloc, count)?,
            store_waits: no_waits(alloc, words)?,
            access_waits: no_waits(alloc, words)?,
        })
    }

    // The place of a word among all words.
    fn place(&self, word: u64) -> usize
        requires { IsWord self.now.extents word }
        ensures place { result ≡ word_place self.now.extents word }
        ensures stores { result < length self.now.store_waits }
        ensures accesses { result < length self.now.access_waits }
    {
        if word < PERSISTENT_BASE {
            ((word - VOLATILE_BASE) / 8) as usize
        } else {
            self.sizes.volatile as usize + ((word - PERSISTENT_BASE) / 8) as usize
        }
    }

    // The place of the tag of a core and a word.
    fn slot(&self, core: u32, word: u64) -> usize
        requires core { core < length self.now.strands }
        requires word { IsWord self.now.extents word }
        ensures slot { result ≡ slot self.now core word }
        ensures stores { result < length self.now.stores }
        ensures accesses { result < length self.now.accesses }
    {
        self.place(word) * self.strands.len() + core as usize
    }

    // The greatest number of persists that core c had made at an access that opposes this one.
    fn made_opposing(&self, c: u32, core: u32, strand: u32, word: u64, write: bool) -> u32
        requires c { c < length self.now.strands }
        requires word { IsWord self.now.extents word }
        ensures { result ≡ made_opposing self.now (access core strand word write) c }
    {
        let slot = self.slot(c, word);
        let tag = if write {
            self.accesses[slot]
        } else {
            self.stores[slot]
        };
        if c == core {
            tag.without(strand)
        } else {
            tag.whole()
        }
    }

    // The greatest waits of the accesses to the word that conflict with a store, or with a load.
    fn conflicting_wait(&self, word: u64, write: bool) -> CountVector
        requires { IsWord self.now.extents word }
        ensures { (b : Access) → b.word ≡ word → b.write ≡ write
            → result.counts ≡ conflicting_wait self.now b }
    {
        let place = self.place(word);
        if write {
            self.access_waits[place]
        } else {
            self.store_waits[place]
        }
    }

    /// What an access is handed by the earlier ones that conflict with it. For each core it is the
    /// greatest of 0, of the waits that were noted with them, and of the numbers of persists that
    /// the core had made at those that are its own and of another strand, their own persists
    /// counted. The access is to a `word` by its address; `write` says that it is a store. It takes
    /// time in the number of cores.
    pub fn covers(&self, core: u32, strand: u32, word: u64, write: bool) -> CountVector
        requires { CanAsk self.now (access core strand word write) }
        ensures answers { (c : ℕ) → c < CORE_ROOM
            → slice_index result.counts c ≡ answer self.now (access core strand word write) c }
        ensures stands { (ns : List Noted) → StandFor self.now ns → (c : ℕ) → c < CORE_ROOM
            → slice_index result.counts c ≡ covered c (access core strand word write) ns }
    {
        let mut counts = self.conflicting_wait(word, write).counts;
        for c in 0..self.strands.len() {
            counts[c] = counts[c].max(self.made_opposing(c as u32, core, strand, word, write));
        }
        CountVector { counts }
    }

    /// Notes an access with its wait, and that its core had made so many persists at it, its own
    /// counted. It takes no memory and constant time.
    pub fn note(
        &mut self,
        core: u32,
        strand: u32,
        word: u64,
        write: bool,
        made: u32,
        wait: &CountVector,
    )
        requires access { CanAsk self.old (access core strand word write) }
        requires made { slice_index self.old.made core ≤ made }
        ensures stands { (ns : List Noted) → StandFor self.old ns
            → StandFor self.new
            (ns ++ noted_as (access core strand word write) made wait.now.counts ∷ []) }
        ensures strands { self.new.strands ≡ slice_set self.old.strands core strand }
        ensures made { self.new.made ≡ slice_set self.old.made core made }
        ensures cores { length self.new.made ≡ length self.new.strands }
        ensures extents { self.new.extents ≡ self.old.extents }
    {
        let place = self.place(word);
        let slot = self.slot(core, word);
        tag_store(&mut self.stores, write, slot, strand, made);
        tag_access(&mut self.accesses, slot, strand, made);
        raise_store(&mut self.store_waits, write, place, wait);
        raise_access(&mut self.access_waits, place, wait);
        self.strands[core as usize] = strand;
        self.made[core as usize] = made;
    }
}

// Notes an access in the tag at a place.
fn tag_access(word_tags: &mut Vec<WordTag>, slot: usize, strand: u32, made: u32)
    requires { slot < length word_tags.old.items }
    ensures { word_tags.new.items ≡ slice_set word_tags.old.items slot
        (tag_after (slice_index_or word_tags.old.items slot no_tag) strand made) }
{
    word_tags[slot] = word_tags[slot].tag_after(strand, made);
}

// The same where it is a store.
fn tag_store(word_tags: &mut Vec<WordTag>, write: bool, slot: usize, strand: u32, made: u32)
    requires { slot < length word_tags.old.items }
    ensures { word_tags.new.items ≡ (if write then slice_set word_tags.old.items slot
        (tag_after (slice_index_or word_tags.old.items slot no_tag) strand made)
        else word_tags.old.items) }
{
    if write {
        tag_access(word_tags, slot, strand, made);
    }
}

// Raises the waits at a place by those of an access.
fn raise_access(waits: &mut Vec<CountVector>, place: usize, wait: &CountVector)
    requires { place < length waits.old.items }
    ensures { waits.new.items ≡ slice_set waits.old.items place
        (vector (greater (slice_index_or waits.old.items place no_counts).counts wait.now.counts)) }
{
    waits[place] = waits[place].greater(wait);
}

// The same where it is a store.
fn raise_store(waits: &mut Vec<CountVector>, write: bool, place: usize, wait: &CountVector)
    requires { place < length waits.old.items }
    ensures { waits.new.items ≡ (if write then slice_set waits.old.items place
        (vector (greater (slice_index_or waits.old.items place no_counts).counts wait.now.counts))
        else waits.old.items) }
{
    if write {
        raise_access(waits, place, wait);
    }
}

// So many zeros.
fn zeros(alloc: Global, count: u32) -> Result<Vec<u32>, OutOfMemory>
    ensures { IfOk result (λ zeros. zeros.items ≡ replicate count 0) }
{
    Ok(vec![in alloc; 0; count as usize]?)
}

// So many tags of no access.
fn no_tags(alloc: Global, count: usize) -> Result<Vec<WordTag>, OutOfMemory>
    ensures { IfOk result (λ word_tags. word_tags.items ≡ replicate count no_tag) }
{
    Ok(vec![in alloc; NO_TAG; count]?)
}

// So many vectors of zeros.
fn no_waits(alloc: Global, count: usize) -> Result<Vec<CountVector>, OutOfMemory>
    ensures { IfOk result (λ waits. waits.items ≡ replicate count no_counts) }
{
    Ok(vec![in alloc; NO_COUNTS; count]?)
}

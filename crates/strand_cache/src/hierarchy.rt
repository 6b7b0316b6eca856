ghost use Rattle.std.specs.Prelude.{◌≡◌, ◌<◌, ◌≤◌, ◌+◌, ◌*◌, ◌^◌, ℕ, [], map, length, replicate, slice_set, IfOk};
ghost use Rattle.std.specs.List.{range_with_len};
ghost use Rattle.strand_base.specs.declared.limits.TheConstants.{MOST_MEMORY, CORE_ROOM, MOST_SETS, MOST_WAYS};
ghost use Rattle.strand_exec.specs.Memory.{extents_of, word_in};
ghost use Rattle.strand_exec.specs.Plan.{IsWord};
ghost use Rattle.strand_cache.specs.Changes.{word_after, memory_after};
ghost use Rattle.strand_cache.specs.Seen.{CachesStand, IsAccess, empty_caches, access_counted, counts_seen, shape_seen};

use crate::access::Access;
use crate::backing::{apart, persistent_words, volatile_words};
use crate::change::Change;
use crate::counts::Counts;
use crate::group::Group;
use crate::lines::LINE_BYTES;
use std::alloc::Global;
use std::marker::Model;
use strand_base::{OutOfMemory, PERSISTENT_BASE, VOLATILE_BASE};
use strand_exec::FlatMemory;

/// The caches of up to eight cores over one backing memory. Each core holds, for each of `sets` sets, up
/// to `ways` lines in the order of its last accesses. Where a core has changed a line, it alone holds it,
/// and the line is written back before another core reads it, or when it is pushed out.
#[derive(Drop)]
pub struct Hierarchy {
    alloc: Global,
    cores: u32,
    sets: u32,
    ways: u32,
    groups: Vec<Group>,
    backing: FlatMemory,
    counts: Vec<Counts>,
}

impl Model for Hierarchy {
    ghost use Rattle.std.specs.Prelude.{map, length, ◌≡◌};
    ghost use Rattle.strand_cache.specs.Copies.{row_lines};
    ghost use Rattle.strand_cache.specs.Seen.{Seen};
    ghost use Rattle.strand_cache.specs.Whole.{IsWhole, flat_memory};

    ghost Value = { Seen };

    ghost view = { λ h. record {
      cores = h.cores;
      sets = h.sets;
      ways = h.ways;
      memory = flat_memory h.sets h.groups.items h.backing;
      counts = h.counts.items;
      lines = map (map row_lines) h.groups.items;
    } };

    ghost invariant = { λ h. IsWhole h.cores h.sets h.ways h.groups.items h.backing × (length h.counts.items ≡ h.cores) };
}

impl Hierarchy {
    /// Empty caches over copies of the words, of which `volatile` begin at 0x20000000 and `persistent` at
    /// 0x40000000. Only this call and `flatten` take memory.
    pub fn new(
        alloc: Global,
        cores: u32,
        sets: u32,
        ways: u32,
        volatile: &[u64],
        persistent: &[u64],
    ) -> Result<Hierarchy, OutOfMemory>
        requires cores { (1 ≤ cores) × (cores ≤ CORE_ROOM) }
        requires sets { (1 ≤ sets) × (sets ≤ MOST_SETS) }
        requires ways { (1 ≤ ways) × (ways ≤ MOST_WAYS) }
        requires volatile { length volatile.now ≤ MOST_MEMORY }
        requires persistent { length persistent.now ≤ MOST_MEMORY }
        ensures empty { IfOk result (λ h. h
            ≡ empty_caches cores sets ways volatile.now persistent.now) }
        ensures stands { IfOk result (λ h. CachesStand h []) }
    {
        let backing = FlatMemory::copy(alloc, volatile, persistent)?;
        apart(&backing);
        let groups = new_groups(alloc, sets as usize, cores as usize)?;
        let counts = vec![in alloc; Counts { hits: 0, misses: 0 }; cores as usize]?;
        Ok(Hierarchy {
            alloc,
            cores,
            sets,
            ways,
            groups,
            backing,
            counts,
        })
    }

    /// One access of a core to a word, which is named by its address. It takes no memory, and time in the
    /// number of cores and ways.
    pub fn access(&mut self, core: u32, word: u64, change: Change) -> Access
        requires core { core < self.old.cores }
        requires word { IsWord (extents_of self.old.memory) word }
        ensures value { result.value ≡ word_after change (word_in self.old.memory word) }
        ensures memory { self.new.memory ≡ memory_after change word self.old.memory }
        ensures cores { self.new.cores ≡ self.old.cores }
        ensures extents { extents_of self.new.memory ≡ extents_of self.old.memory }
        ensures shape { shape_seen self.new ≡ shape_seen self.old }
        ensures counts { self.new.counts
            ≡ slice_set self.old.counts core
            (access_counted result.hit (counts_seen self.old core)) }
        ensures access { IsAccess self.old self.new core word change result.hit }
    {
        apart(&self.backing);
        let set = (word / LINE_BYTES % self.sets as u64) as usize;
        let group = &mut self.groups[set];
        let seen = group.access(
            &mut self.backing,
            core as usize,
            word,
            self.ways as usize,
            change,
        );
        self.counts[core as usize] = self.counts[core as usize].counted(seen.hit);
        seen
    }

    /// A word of the flat memory, which is named by its address: that of the line's changed copy, else the
    /// backing word. It is no access.
    pub fn word(&self, word: u64) -> u64
        requires { IsWord (extents_of self.now.memory) word }
        ensures { result ≡ word_in self.now.memory word }
    {
        apart(&self.backing);
        let group = &self.groups[(word / LINE_BYTES % self.sets as u64) as usize];
        match group.owned(word / LINE_BYTES) {
            Some(held) => held.words[(word % LINE_BYTES / 8) as usize],
            None => self.backing.read(word),
        }
    }

    /// The words of a region of the flat memory.
    fn region(&self, base: u64, count: usize) -> Result<Vec<u64>, OutOfMemory>
        requires end { base + 8 * count < 2 ^ 64 }
        requires words { (i : ℕ) → i < count
            → IsWord (extents_of self.now.memory) (base + 8 * i) }
        ensures { IfOk result (λ words. words.items
            ≡ map (λ i. word_in self.now.memory (base + 8 * i)) (range_with_len 0 count)) }
    {
        let mut words = Vec::with_capacity(self.alloc, count)?;
        for i in 0..count {
            words.push(self.word(base + 8 * i as u64))?;
        }
        Ok(words)
    }

    /// The flat memory.
    pub fn flatten(&self) -> Result<FlatMemory, OutOfMemory>
        ensures { IfOk result (λ memory. memory ≡ self.now.memory) }
    {
        apart(&self.backing);
        let low = volatile_words(&self.backing);
        let high = persistent_words(&self.backing);
        let volatile = self.region(VOLATILE_BASE, low)?;
        let persistent = self.region(PERSISTENT_BASE, high)?;
        Ok(FlatMemory {
            volatile,
            persistent,
        })
    }

    /// How many accesses of each core hit and missed.
    pub fn all_counts(&self) -> &[Counts]
        ensures { result.now ≡ self.now.counts }
    {
        &self.counts
    }

    /// How many accesses of a core hit and missed.
    pub fn counts(&self, core: u32) -> Counts
        requires { core < self.now.cores }
        ensures { result ≡ counts_seen self.now core }
    {
        self.counts[core as usize]
    }
}

/// The groups of so many sets, with no lines.
fn new_groups(alloc: Global, sets: usize, cores: usize) -> Result<Vec<Group>, OutOfMemory>
    ensures { IfOk result (λ groups. groups.items ≡ replicate sets (replicate cores [])) }
{
    let mut groups = Vec::with_capacity(alloc, sets)?;
    for _i in 0..sets {
        groups.push(Group::new(alloc, cores)?)?;
    }
    Ok(groups)
}

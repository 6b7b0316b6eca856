// The parts before the first step.
ghost use Rattle.std.specs.Prelude.{◌≡◌, ◌≤◌, [], IfOk, length, replicate};
ghost use Rattle.strand_base.specs.declared.limits.TheConstants.{MOST_QUEUE, MOST_BUFFERS, MOST_RING};
ghost use Rattle.strand_buffer.specs.Buffers.{empty_buffers};
ghost use Rattle.strand_cache.specs.Seen.{CachesStand, empty_caches};
ghost use Rattle.strand_queue.specs.Queue.{queue};
ghost use Rattle.strand_rules.specs.Machine.{start_of};
ghost use Rattle.strand_tags.specs.TagsSeen.{StandFor};
ghost use Rattle.strand_machine.specs.Changed.{empty_tally, start_parts};

use crate::parts::Parts;
use crate::tally::CoreTally;
use crate::waiting::Waiting;
use std::alloc::Global;
use strand_base::OutOfMemory;
use strand_buffer::StrandBuffers;
use strand_cache::Hierarchy;
use strand_control::Controller;
use strand_exec::Sizes;
use strand_image::Image;
use strand_inputs::Config;
use strand_queue::PersistQueue;
use strand_tags::Tags;

// The parts of a machine of this image, whose regions have these sizes, with room for so many persists a
// core, and for their waits.
pub(crate) fn fresh_parts(
    alloc: Global,
    config: Config,
    image: &Image,
    sizes: Sizes,
    room: u32,
) -> Result<Parts, OutOfMemory>
    ensures parts { IfOk result (λ m. m ≡ start_parts config (length image.now.entries)
        (start_of image.now).now.memory room m.tags) }
    ensures extents { IfOk result (λ m. m.tags.extents ≡ sizes) }
    ensures strands { IfOk result (λ m. m.tags.strands ≡ replicate (length image.now.entries) 0) }
    ensures made { IfOk result (λ m. m.tags.made ≡ replicate (length image.now.entries) 0) }
    ensures noted { IfOk result (λ m. StandFor m.tags []) }
    ensures accesses { IfOk result (λ m. CachesStand m.cache []) }
{
    let cores = image.entries().len() as u32;
    let tags = Tags::new(alloc, cores, sizes)?;
    let cache = fresh_cache(alloc, config, image)?;
    Ok(Parts {
        queues: fresh_queues(alloc, cores, config.queue)?,
        buffers: fresh_buffers(alloc, cores, config.buffers, config.ring)?,
        tags,
        control: Controller::new(alloc, config.flight)?,
        tallies: fresh_tallies(alloc, cores, room)?,
        waiting: Waiting::new(alloc, room)?,
        cache,
    })
}

// The empty caches of a machine of this image.
fn fresh_cache(alloc: Global, config: Config, image: &Image) -> Result<Hierarchy, OutOfMemory>
    ensures empty { IfOk result (λ h. h ≡ empty_caches (length image.now.entries) config.sets
        config.ways image.now.volatile image.now.persistent) }
    ensures stands { IfOk result (λ h. CachesStand h []) }
{
    let cores = image.entries().len() as u32;
    let (sets, ways) = (config.sets, config.ways);
    Hierarchy::new(
        alloc,
        cores,
        sets,
        ways,
        image.volatile(),
        image.persistent(),
    )
}

// So many empty queues of a depth.
fn fresh_queues(alloc: Global, count: u32, depth: u32) -> Result<Vec<PersistQueue>, OutOfMemory>
    requires some { 1 ≤ depth }
    requires limit { depth ≤ MOST_QUEUE }
    ensures { IfOk result (λ queues. queues.items ≡ replicate count (queue [] depth)) }
{
    let mut queues: Vec<PersistQueue> = Vec::with_capacity(alloc, count as usize)?;
    for i in 0..count {
        queues.push_reserved(PersistQueue::new(alloc, depth)?);
    }
    Ok(queues)
}

// The empty strand buffers of so many cores.
fn fresh_buffers(
    alloc: Global,
    count: u32,
    buffers: u32,
    ring: u32,
) -> Result<Vec<StrandBuffers>, OutOfMemory>
    requires some { 1 ≤ buffers }
    requires few { buffers ≤ MOST_BUFFERS }
    requires places { 1 ≤ ring }
    requires small { ring ≤ MOST_RING }
    ensures { IfOk result (λ all. all.items ≡ replicate count (empty_buffers buffers ring)) }
{
    let mut all: Vec<StrandBuffers> = Vec::with_capacity(alloc, count as usize)?;
    for i in 0..count {
        all.push_reserved(StrandBuffers::new(alloc, buffers, ring)?);
    }
    Ok(all)
}

// Nothing is counted of so many cores.
fn fresh_tallies(alloc: Global, count: u32, room: u32) -> Result<Vec<CoreTally>, OutOfMemory>
    ensures { IfOk result (λ tallies. tallies.items ≡ replicate count (empty_tally room)) }
{
    let mut tallies: Vec<CoreTally> = Vec::with_capacity(alloc, count as usize)?;
    for i in 0..count {
        tallies.push_reserved(CoreTally::new(alloc, room)?);
    }
    Ok(tallies)
}

ghost use Rattle.std.specs.Prelude.{◌≡◌, ◌≤◌, All, IfOk};
ghost use Rattle.strand_base.specs.declared.limits.TheConstants.{MOST_STEPS};
ghost use Rattle.strand_inputs.specs.Schedule.{IsBelow};
ghost use Rattle.strand_gen.specs.Inputs.{generated_machine, generated_schedule};
ghost use Rattle.strand_gen.specs.Program.{generated_image};

use crate::program::generated_image;
use crate::schedule::generated_schedule;
use std::alloc::Global;
use strand_base::OutOfMemory;
use strand_image::Image;
use strand_inputs::{Config, Conflict, Mode, Schedule};

/// The inputs of a run that a seed and a size give.
#[derive(Debug, Drop)]
pub struct Generated {
    /// The same machine for every seed, with two strand buffers a core.
    pub config: Config,
    /// A program of two cores, which depends on the seed alone.
    pub image: Image,
    /// As many steps as the size says.
    pub schedule: Schedule,
}

/// The machine, the image and the schedule of `size` steps that `seed` gives, by the rule in
/// docs/FORMATS.md, "Generator". Seeds 0 and 1 give the same. It fails only where memory ran out.
pub fn generate(alloc: Global, seed: u64, size: u32) -> Result<Generated, OutOfMemory>
    requires some { 1 ≤ size }
    requires room { size ≤ MOST_STEPS }
    ensures config { IfOk result (λ g. g.config ≡ generated_machine) }
    ensures image { IfOk result (λ g. g.image ≡ generated_image seed) }
    ensures schedule { IfOk result (λ g. g.schedule ≡ generated_schedule seed size) }
    ensures below { IfOk result (λ g. All (IsBelow 2 2) g.schedule) }
{
    let config = Config {
        mode: Mode::Strand,
        queue: 16,
        buffers: 2,
        ring: 8,
        flight: 4,
        sets: 4,
        ways: 2,
        conflict: Conflict::Stall,
    };
    Ok(Generated {
        config,
        image: generated_image(alloc, seed)?,
        schedule: generated_schedule(alloc, seed, size)?,
    })
}

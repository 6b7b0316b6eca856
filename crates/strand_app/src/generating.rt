ghost use Rattle.std.specs.Prelude.{IfOk};
ghost use Rattle.strand_app.specs.Generated.{IsGiven, generated};
ghost use Rattle.strand_app.specs.Opening.{AreStepsBelow, all_inputs};
ghost use Rattle.strand_app.specs.Reads.{decided};

use crate::fetching::OpenFault;
use crate::opening::RunFiles;
use std::alloc::Global;
use strand_base::{MOST_STEPS, OutOfMemory};
use strand_gen::generate;
use strand_report::Refusal;

/// What a seed and a size give: the machine, the image, and a schedule of so many steps. A size that isn't 1 to 200,000
/// is refused.
pub fn generated(alloc: Global, seed: u64, size: u64) -> Result<RunFiles, OpenFault>
    ensures given { IsGiven all_inputs (decided (generated seed size)) result }
    ensures below { IfOk result AreStepsBelow }
{
    if size < 1 || size > u64::from(MOST_STEPS) {
        return Err(OpenFault::Refused(Refusal::Size { size }));
    }
    match generate(alloc, seed, size as u32) {
        Ok(made) => Ok(RunFiles {
            config: made.config,
            image: made.image,
            schedule: made.schedule,
        }),
        Err(OutOfMemory) => Err(OpenFault::OutOfMemory),
    }
}

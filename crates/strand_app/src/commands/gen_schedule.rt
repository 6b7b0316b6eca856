ghost use Rattle.std.specs.Prelude.{IfOk};
ghost use Rattle.strand_app.specs.Answers.{PutsOk};
ghost use Rattle.strand_app.specs.Commands.GenSchedule.{gen_schedule_rule};
ghost use Rattle.strand_app.specs.Runs.{Comes};
ghost use Rattle.strand_app.specs.World.{World};
ghost use Rattle.strand_inputs.specs.Schedule.{schedule_text};

use crate::generating::generated;
use crate::opening::RunFiles;
use crate::refusing::refuse;
use crate::status::{Made, Status};
use std::alloc::Global;
use strand_base::OutOfMemory;
use strand_inputs::print_schedule;

fn schedule_file(alloc: Global, files: &RunFiles) -> Result<Made, OutOfMemory>
    ensures { IfOk result (PutsOk (schedule_text files.now.schedule)) }
{
    let mut text = Vec::new(alloc);
    print_schedule(&files.schedule, &mut text)?;
    Ok(Made {
        status: Status::Ok,
        text,
    })
}

/// `gen-schedule SEED SIZE`: the generated schedule.
pub fn schedule_generated(alloc: Global, seed: u64, size: u64) -> Result<Made, OutOfMemory>
    ensures { (same : World) → Comes (gen_schedule_rule seed size same.bank) same same result }
{
    match generated(alloc, seed, size) {
        Ok(files) => schedule_file(alloc, &files),
        Err(fault) => refuse(alloc, fault),
    }
}

ghost use Rattle.std.specs.Prelude.{◌≡◌, ◌≤◌, All, IfOk};
ghost use Rattle.strand_base.specs.declared.limits.TheConstants.{MOST_STEPS};
ghost use Rattle.strand_inputs.specs.Fits.{StepFits};
ghost use Rattle.strand_inputs.specs.Schedule.{IsBelow};
ghost use Rattle.strand_gen.specs.Inputs.{step_by, step, generated_schedule};

use crate::draws::Draws;
use std::alloc::Global;
use strand_base::OutOfMemory;
use strand_inputs::{Schedule, Step};

/// The step by a number below 4.
#[tactic(auto, unfolding(crate::specs::Inputs::step_by))]
fn step_by(k: u32, draws: &mut Draws) -> Step
    ensures drawn { step_by k draws.old.state ≡ (result, draws.new.state) }
    ensures fits { StepFits result }
    ensures below { IsBelow 2 2 result }
{
    match k {
        0 => Step::Core(draws.draw(2)),
        1 => Step::Dispatch(draws.draw(2)),
        2 => {
            let core = draws.draw(2);
            let buffer = draws.draw(2);
            let place = draws.draw(2);
            Step::Send(core, buffer, place)
        }
        _ => Step::Write(draws.draw(4)),
    }
}

/// A drawn step.
fn step(draws: &mut Draws) -> Step
    ensures drawn { step draws.old.state ≡ (result, draws.new.state) }
    ensures fits { StepFits result }
    ensures below { IsBelow 2 2 result }
{
    let k = draws.draw(4);
    step_by(k, draws)
}

/// The schedule of so many drawn steps.
#[tactic(auto, unfolding(crate::specs::Inputs::generated_schedule))]
pub(crate) fn generated_schedule(
    alloc: Global,
    seed: u64,
    size: u32,
) -> Result<Schedule, OutOfMemory>
    requires { size ≤ MOST_STEPS }
    ensures steps { IfOk result (λ s. s ≡ generated_schedule seed size) }
    ensures below { IfOk result (λ s. All (IsBelow 2 2) s) }
{
    let mut draws = Draws::of_seed(seed);
    let mut schedule = Schedule::new(alloc);
    for _ in 0..size {
        schedule.push(step(&mut draws))?;
    }
    Ok(schedule)
}

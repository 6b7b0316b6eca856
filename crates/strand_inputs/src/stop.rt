ghost use Rattle.std.specs.Prelude.{◌≡◌};
ghost use Rattle.strand_inputs.specs.Stop.{stop_of, steps_to};

use strand_base::read_decimal;
use thiserror::Error;

/// Where a run is cut off: after all steps of its schedule, or after so many.
#[derive(Clone, Copy, Debug, PartialEq, Eq)]
pub enum Stop {
    End,
    At(u64),
}

/// A run was to be cut off after `stop` steps, and the schedule has only `steps`.
#[derive(Clone, Copy, Debug, PartialEq, Eq, Error)]
#[error("step {stop} of {steps}")]
pub struct StopPast {
    pub stop: u64,
    pub steps: u64,
}

/// The stop that a word names: `end`, or a decimal that `read_decimal` takes. It takes no memory, and
/// answers `None` exactly for any other word.
#[tactic(auto, unfolding(crate::specs::Stop::stop_of))]
pub fn read_stop(word: &str) -> Option<Stop>
    ensures { result ≡ stop_of word.now }
{
    let word = word.as_bytes();
    if word == b"end".as_slice() {
        return Some(Stop::End);
    }
    let number = read_decimal(word).ok()?;
    Some(Stop::At(number))
}

/// How many of so many steps are made. It takes no memory, and is refused exactly where a number is
/// greater than the steps.
pub fn stop_at(stop: Stop, steps: u64) -> Result<u64, StopPast>
    ensures { result ≡ steps_to stop steps }
{
    match stop {
        Stop::End => Ok(steps),
        Stop::At(stop) if stop <= steps => Ok(stop),
        Stop::At(stop) => Err(StopPast { stop, steps }),
    }
}

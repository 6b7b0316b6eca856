ghost use Rattle.std.specs.Prelude.{◌≡◌, ◌↔◌, [], IsTrue, OnOk, OnErr};
ghost use Rattle.strand_base.specs.FaultPlanSeen.{FailsNext, called, naming};

use crate::OutOfMemory;
use std::alloc::Global;
use std::marker::Model;

/// Which calls of a fake are to fail, by their numbers, and how many calls were made.
///
/// Calls are counted from 1. The count stays at 2^64 - 1, and a call past it has no number.
#[derive(Drop)]
pub struct FaultPlan {
    made: u64,
    failing: Vec<u64>,
}

impl Model for FaultPlan {
    ghost use Rattle.strand_base.specs.FaultPlanSeen.{FaultPlanSeen};

    ghost Value = { FaultPlanSeen };

    ghost view = { λ p. record { made = p.made; failing = p.failing.items } };
}

impl FaultPlan {
    /// No call was made, and none is to fail. It takes no memory.
    pub fn new(alloc: Global) -> FaultPlan
        ensures { result ≡ record { made = 0; failing = [] } }
    {
        FaultPlan {
            made: 0,
            failing: Vec::new(alloc),
        }
    }

    /// Names one more call that is to fail. A refusal changes nothing.
    pub fn fail_at(&mut self, call: u64) -> Result<(), OutOfMemory>
        ensures ok { OnOk result (self.new ≡ naming call self.old) }
        ensures err { OnErr result (self.new ≡ self.old) }
    {
        self.failing.push(call)?;
        Ok(())
    }

    /// Counts a call, and says whether it is to fail.
    pub fn fires(&mut self) -> bool
        ensures fires { IsTrue result ↔ FailsNext self.old }
        ensures plan { self.new ≡ called self.old }
    {
        if self.made == u64::MAX {
            return false;
        }
        self.made += 1;
        self.failing.contains(&self.made)
    }
}

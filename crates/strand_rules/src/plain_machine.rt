ghost use Rattle.std.specs.Prelude.{◌≡◌, ◌<◌, ◌≤◌, IfOk, Some, length, slice_get};
ghost use Rattle.strand_base.specs.declared.limits.TheConstants.{MOST_STEPS, MOST_CORES};
ghost use Rattle.strand_inputs.specs.Schedule.{IsBelow};
ghost use Rattle.strand_events.specs.Order.{HoldsJoined, IsDownwardClosed};
ghost use Rattle.strand_events.specs.Places.{LieIn};
ghost use Rattle.strand_modules.specs.Seen.{bank_seen};
ghost use Rattle.strand_inputs.specs.declared.conflict.Conflict.TheVariants.{Tag};
ghost use Rattle.strand_rules.specs.declared.turn.Cause.TheVariants as causes;
ghost use Rattle.strand_rules.specs.declared.turn.Turn.TheVariants.{Bubble};
ghost use Rattle.strand_rules.specs.Cycle.{durable_set};
ghost use Rattle.strand_rules.specs.Machine.{machine_at, durable_persists, SameSetup, StandsOn, StepLeaves};

use crate::pipeline::Pipeline;
use crate::turn::Turn;
use std::alloc::Global;
use std::marker::Model;
use strand_base::{CORE_ROOM, OutOfMemory};
use strand_events::Trace;
use strand_exec::{CoreState, FlatMemory, Sizes};
use strand_image::Image;
use strand_inputs::{Config, Step};
use strand_modules::ModuleBank;

/// The machine that runs an image under a schedule, one step at a time, by the cycle rules
/// (docs/cycle.md), over one flat memory. It takes no memory after it is made, and `step` looks
/// back over its trace and, under the rule `tag`, over the waits of its events (docs/waits.md).
#[derive(Drop)]
pub struct PlainMachine {
    pub(crate) pipeline: Pipeline,
    pub(crate) memory: FlatMemory,
    // the wait of each event under tag, and none under stall
    pub(crate) waits: Vec<[u32; CORE_ROOM]>,
}

impl Model for PlainMachine {
    ghost use Rattle.strand_rules.specs.Machine.{Machine};

    ghost Value = { Machine };

    ghost use Rattle.strand_rules.specs.KeptPlain.{seen, IsKeptPlainMachine};

    ghost view = { seen };

    ghost invariant = { IsKeptPlainMachine };
}

impl PlainMachine {
    /// The machine before its first step, with room for so many steps. It takes all the memory that the
    /// run will need.
    pub fn new(
        alloc: Global,
        config: &Config,
        image: &Image,
        steps: u64,
    ) -> Result<PlainMachine, OutOfMemory>
        requires { steps ≤ MOST_STEPS }
        ensures { IfOk result (λ m. m ≡ machine_at config.now image.now steps) }
    {
        Ok(PlainMachine {
            pipeline: Pipeline::new(alloc, config, image, steps)?,
            memory: FlatMemory::copy(alloc, image.volatile(), image.persistent())?,
            waits: Vec::with_capacity(alloc, steps as usize)?,
        })
    }

    /// How many steps were made: a step that is done or a bubble is one, a fault is none.
    pub fn made(&self) -> u64
        ensures { result ≡ self.now.made }
    {
        self.pipeline.made()
    }

    /// What the cores did so far, with room for all steps. Its persists are to the persistent words of the
    /// image.
    pub fn trace(&self) -> &Trace
        ensures events { result.now.events ≡ self.now.state.now.trace }
        ensures room { result.now.room ≡ self.now.steps }
        ensures placed { LieIn result.now.events self.now.program.sizes.persistent }
    {
        self.pipeline.trace()
    }

    /// The cores that retired an instruction, in turn.
    pub fn retired(&self) -> &[u32]
        ensures { result.now ≡ self.now.state.retired }
    {
        self.pipeline.retired()
    }

    /// Whether each persist is durable, by the numbers of the persists. The durable ones are
    /// downward-closed in persist order, and hold each that a core made before its last join.
    pub fn durable(&self) -> &[bool]
        ensures marks { result.now ≡ durable_persists self.now.state }
        ensures closed { IsDownwardClosed self.now.config.mode self.now.state.now.trace (durable_set self.now.state) }
        ensures joined { HoldsJoined self.now.state.now.trace (durable_set self.now.state) }
    {
        self.pipeline.durable()
    }

    /// The cores.
    pub fn cores(&self) -> &[CoreState]
        ensures cores { result.now ≡ self.now.state.now.cores }
        ensures few { length result.now ≤ MOST_CORES }
    {
        self.pipeline.cores()
    }

    /// Core n.
    pub fn core(&self, n: u32) -> &CoreState
        requires { n < length self.now.state.now.cores }
        ensures { slice_get self.now.state.now.cores n ≡ Some result.now }
    {
        self.pipeline.core(n)
    }

    /// A copy of the memory that the cores see.
    pub fn flatten(&self) -> Result<FlatMemory, OutOfMemory>
        ensures { IfOk result (λ memory. memory ≡ self.now.state.now.memory) }
    {
        let memory = &self.memory;
        let alloc = *memory.volatile.allocator();
        FlatMemory::copy(alloc, &memory.volatile, &memory.persistent)
    }

    /// The settings.
    pub fn config(&self) -> Config
        ensures { result ≡ self.now.config }
    {
        self.pipeline.config()
    }

    /// How many words the two data regions have.
    pub fn sizes(&self) -> Sizes
        ensures { result ≡ self.now.program.sizes }
    {
        self.pipeline.sizes()
    }

    /// Makes a step, for a core and a buffer of the machine. It takes no memory. A fault comes only where
    /// the bank refused the step's store, and then nothing else changed. Under the rule `tag` no step is a
    /// bubble for a conflict. A bank that stood for the state before stands for the state after it, whatever
    /// the turn.
    pub fn step(&mut self, step: Step, bank: &mut ModuleBank) -> Turn
        requires room { self.old.made < self.old.steps }
        requires step { IsBelow (length self.old.state.now.cores) self.old.config.buffers step }
        requires bank { self.old.program.sizes.persistent ≤ (bank_seen holds bank.old).size }
        ensures step { StepLeaves self.old self.new (bank_seen holds bank.old) (bank_seen holds bank.new) step result }
        ensures tagged { self.old.config.conflict ≡ Tag → result ≡ Bubble causes.Conflict → ⊥ }
        ensures setup { SameSetup self.old self.new (bank_seen holds bank.old) (bank_seen holds bank.new) }
        ensures stands { StandsOn self.old.program.sizes.persistent self.old.state self.new.state
            (bank_seen holds bank.old) (bank_seen holds bank.new) }
    {
        self.pipeline.keeps();
        match step {
            Step::Core(n) => self.step_core(n),
            Step::Dispatch(n) => self.pipeline.step_dispatch(n),
            Step::Send(n, b, j) => self.pipeline.step_send(n, b, j, &self.waits),
            Step::Write(j) => self.pipeline.step_write(j, bank),
        }
    }
}

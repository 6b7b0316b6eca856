ghost use Rattle.std.specs.Prelude.{◌≡◌, ◌<◌, ◌≤◌, IfOk, Some, length, slice_get};
ghost use Rattle.strand_base.specs.declared.limits.TheConstants.{MOST_STEPS, MOST_CORES};
ghost use Rattle.strand_events.specs.Fits.{AllFit};
ghost use Rattle.strand_events.specs.Order.{HoldsJoined, IsDownwardClosed};
ghost use Rattle.strand_events.specs.Places.{LieIn};
ghost use Rattle.strand_inputs.specs.Schedule.{IsBelow};
ghost use Rattle.strand_queue.specs.Queue.{queue};
ghost use Rattle.strand_inputs.specs.declared.conflict.Conflict.TheVariants.{Tag};
ghost use Rattle.strand_rules.specs.declared.turn.Cause.TheVariants as causes;
ghost use Rattle.strand_rules.specs.declared.turn.Turn.TheVariants.{Bubble};
ghost use Rattle.strand_rules.specs.Cycle.{durable_set};
ghost use Rattle.strand_rules.specs.Machine.{machine_at, made_to, durable_persists, SameSetup, StandsOn, StepLeaves};
ghost use Rattle.strand_machine.specs.Cached.{CacheStands, cache_counts, core_counts};
ghost use Rattle.strand_machine.specs.Machine.{IsRingMachine, PartsStand};
ghost use Rattle.strand_machine.specs.Stand.{BuffersStand, TagsStand, buffers_at, queue_at, queue_items, requests};
ghost use Rattle.strand_modules.specs.Seen.{bank_seen};

use crate::making::fresh_parts;
use crate::parts::Parts;
use std::alloc::Global;
use std::marker::Model;
use strand_base::OutOfMemory;
use strand_buffer::StrandBuffers;
use strand_cache::{Counts, Hierarchy};
use strand_control::Controller;
use strand_events::Trace;
use strand_exec::{CoreState, FlatMemory, Sizes};
use strand_image::Image;
use strand_inputs::{Config, Step};
use strand_modules::ModuleBank;
use strand_queue::PersistQueue;
use strand_rules::{Cause, Pipeline, Turn};
use strand_tags::Tags;

/// The machine that runs an image under a schedule, one step at a time, by the cycle rules
/// (docs/cycle.md), and decides each step by its parts: the queues and the strand buffers of the cores,
/// the conflict tags, the requests in flight, and what is counted of each core (docs/rings.md). The cores
/// read and write their memory through the caches (docs/cache.md), and it stands nowhere else. The
/// machine takes no memory after it is made, and no step looks back over the trace. Contracts see the
/// machine of the rules, and the parts beside it, which stand for its state.
#[derive(Drop)]
pub struct Machine {
    pub(crate) pipeline: Pipeline,
    pub(crate) parts: Parts,
}

impl Model for Machine {
    ghost use Rattle.strand_machine.specs.Machine.{RingMachine};

    ghost Value = { RingMachine };

    ghost use Rattle.strand_machine.specs.KeptMachine.{seen, IsKeptRingMachine};

    ghost view = { seen };

    ghost invariant = { IsKeptRingMachine };
}

impl Machine {
    /// The machine before its first step, with room for so many steps. It takes all the memory that the
    /// run will need.
    pub fn new(
        alloc: Global,
        config: &Config,
        image: &Image,
        steps: u64,
    ) -> Result<Machine, OutOfMemory>
        requires { steps ≤ MOST_STEPS }
        ensures machine { IfOk result (λ m. m.machine ≡ machine_at config.now image.now steps) }
        ensures parts { IfOk result PartsStand }
    {
        let pipeline = Pipeline::new(alloc, config, image, steps)?;
        let parts = fresh_parts(alloc, *config, image, pipeline.sizes(), steps as u32)?;
        Ok(Machine { pipeline, parts })
    }

    /// How many steps were made: a step that is done or a bubble is one, a fault is none.
    pub fn made(&self) -> u64
        ensures { result ≡ self.now.machine.made }
    {
        self.pipeline.made()
    }

    /// The settings.
    pub fn config(&self) -> Config
        ensures { result ≡ self.now.machine.config }
    {
        self.pipeline.config()
    }

    /// How many words the two data regions have.
    pub fn sizes(&self) -> Sizes
        ensures { result ≡ self.now.machine.program.sizes }
    {
        self.pipeline.sizes()
    }

    /// What the cores did so far, with room for all steps. Its persists are to the persistent words of the
    /// image.
    pub fn trace(&self) -> &Trace
        ensures events { result.now.events ≡ self.now.machine.state.now.trace }
        ensures room { result.now.room ≡ self.now.machine.steps }
        ensures placed { LieIn result.now.events self.now.machine.program.sizes.persistent }
    {
        self.pipeline.trace()
    }

    /// The cores that retired an instruction, in turn.
    pub fn retired(&self) -> &[u32]
        ensures { result.now ≡ self.now.machine.state.retired }
    {
        self.pipeline.retired()
    }

    /// Whether each persist is durable, by the numbers of the persists. The durable ones are
    /// downward-closed in persist order, and hold each that a core made before its last join.
    pub fn durable(&self) -> &[bool]
        ensures marks { result.now ≡ durable_persists self.now.machine.state }
        ensures closed { IsDownwardClosed self.now.machine.config.mode self.now.machine.state.now.trace
            (durable_set self.now.machine.state) }
        ensures joined { HoldsJoined self.now.machine.state.now.trace
            (durable_set self.now.machine.state) }
    {
        self.pipeline.durable()
    }

    /// The cores.
    pub fn cores(&self) -> &[CoreState]
        ensures cores { result.now ≡ self.now.machine.state.now.cores }
        ensures few { length result.now ≤ MOST_CORES }
    {
        self.pipeline.cores()
    }

    /// Core n.
    pub fn core(&self, n: u32) -> &CoreState
        requires { n < length self.now.machine.state.now.cores }
        ensures { slice_get self.now.machine.state.now.cores n ≡ Some result.now }
    {
        self.pipeline.core(n)
    }

    /// A copy of the memory that the cores see.
    pub fn flatten(&self) -> Result<FlatMemory, OutOfMemory>
        ensures { IfOk result (λ memory. memory ≡ self.now.machine.state.now.memory) }
    {
        self.parts.cache().flatten()
    }

    /// The queue of core n: its items that it hasn't dispatched, in trace order.
    pub fn queue(&self, n: u32) -> &PersistQueue
        requires { n < length self.now.machine.state.now.cores }
        ensures part { result.now ≡ queue_at self.now.parts n }
        ensures stands { result.now ≡ queue
            (queue_items self.now.machine.config self.now.machine.state n) self.now.machine.config.queue }
    {
        self.parts.queue(n)
    }

    /// The strand buffers of core n: its dispatched persists, in each buffer from the oldest that isn't
    /// durable on.
    pub fn buffers(&self, n: u32) -> &StrandBuffers
        requires { n < length self.now.machine.state.now.cores }
        ensures part { result.now ≡ buffers_at self.now.parts n }
        ensures stands { BuffersStand self.now.machine.config self.now.machine.state n result.now }
    {
        self.parts.buffers(n)
    }

    /// The conflict tags, which stand for the accesses of the trace.
    pub fn tags(&self) -> &Tags
        ensures part { result.now ≡ self.now.parts.tags }
        ensures stands { TagsStand self.now.machine.config self.now.machine.program.sizes
            self.now.machine.state result.now }
    {
        self.parts.tags()
    }

    /// The requests in flight, in the order of sending.
    pub fn control(&self) -> &Controller
        ensures part { result.now ≡ self.now.parts.control }
        ensures stands { result.now ≡ record {
          requests = requests self.now.machine.config self.now.machine.state;
          limit = self.now.machine.config.flight;
        } }
    {
        self.parts.control()
    }

    /// The caches: their flat memory is the cores' memory, and they stand for the accesses of the trace.
    pub fn cache(&self) -> &Hierarchy
        ensures part { result.now ≡ self.now.parts.cache }
        ensures stands { CacheStands self.now.machine.config self.now.machine.state result.now }
    {
        self.parts.cache()
    }

    /// How many of core n's accesses hit and missed, by the cache rule.
    pub fn counts(&self, n: u32) -> Counts
        requires { n < length self.now.machine.state.now.cores }
        ensures { result
            ≡ core_counts self.now.machine.config self.now.machine.state.now.trace n }
    {
        self.parts.cache().counts(n)
    }

    /// The same of each core.
    pub fn all_counts(&self) -> &[Counts]
        ensures { result.now ≡ cache_counts self.now.machine.config
            (length self.now.machine.state.now.cores) self.now.machine.state.now.trace }
    {
        self.parts.cache().all_counts()
    }

    // What holds of every machine. A trace can have its events.
    pub(crate) fn keeps(&self)
        ensures holds { IsRingMachine self.now }
        ensures fits { AllFit self.now.machine.state.now.trace }
    {
        self.pipeline.keeps();
    }

    // A step that changes nothing but the count of steps.
    pub(crate) fn bubble(&mut self, cause: Cause) -> Turn
        requires { self.old.machine.made < self.old.machine.steps }
        ensures turn { result ≡ Turn.Bubble cause }
        ensures machine { self.new.machine ≡ made_to self.old.machine self.old.machine.state }
        ensures parts { PartsStand self.new }
    {
        self.pipeline.bubble(cause)
    }

    /// Makes a step, for a core and a buffer of the machine. It takes no memory. A fault comes only where
    /// the bank refused the step's store, and then nothing else changed. Under the rule `tag` no step is a
    /// bubble for a conflict. A bank that stood for the state before stands for the state after it, whatever
    /// the turn. The parts stand for the state after it.
    pub fn step(&mut self, step: Step, bank: &mut ModuleBank) -> Turn
        requires room { self.old.machine.made < self.old.machine.steps }
        requires step { IsBelow (length self.old.machine.state.now.cores)
            self.old.machine.config.buffers step }
        requires bank { self.old.machine.program.sizes.persistent ≤ (bank_seen holds bank.old).size }
        ensures step { StepLeaves self.old.machine self.new.machine (bank_seen holds bank.old) (bank_seen holds bank.new) step result }
        ensures tagged { self.old.machine.config.conflict ≡ Tag
            → result ≡ Bubble causes.Conflict → ⊥ }
        ensures setup { SameSetup self.old.machine self.new.machine (bank_seen holds bank.old) (bank_seen holds bank.new) }
        ensures stands { StandsOn self.old.machine.program.sizes.persistent
            self.old.machine.state self.new.machine.state (bank_seen holds bank.old) (bank_seen holds bank.new) }
        ensures parts { PartsStand self.new }
    {
        self.pipeline.keeps();
        match step {
            Step::Core(n) => self.step_core(n),
            Step::Dispatch(n) => self.step_dispatch(n),
            Step::Send(n, b, j) => self.step_send(n, b, j),
            Step::Write(j) => self.step_write(j, bank),
        }
    }
}

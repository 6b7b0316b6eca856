ghost use Rattle.std.specs.Prelude.{◌≡◌, ◌<◌, ◌≤◌, IfOk, Some, All, map, length, replicate, slice_get};
ghost use Rattle.strand_base.specs.declared.limits.TheConstants.{MOST_STEPS, MOST_CODE, MOST_CORES};
ghost use Rattle.strand_exec.specs.Core.{fresh};
ghost use Rattle.strand_events.specs.Fits.{AllFit};
ghost use Rattle.strand_events.specs.Order.{HoldsJoined, IsDownwardClosed};
ghost use Rattle.strand_events.specs.Places.{LieIn};
ghost use Rattle.strand_rules.specs.Cycle.{durable_set};
ghost use Rattle.strand_rules.specs.Kept.{IsKeptMachine};
ghost use Rattle.strand_rules.specs.Machine.{machine_at, made_to, durable_persists};
ghost use Rattle.strand_rules.specs.Pipeline.{IsReachedWithSome, no_memory, with_memory};

use crate::turn::{Cause, Turn};
use std::alloc::Global;
use std::marker::Model;
use strand_base::OutOfMemory;
use strand_events::Trace;
use strand_exec::{Code, CoreState, Sizes};
use strand_image::Image;
use strand_inputs::Config;

/// The cores, their trace, and the persists on their way to the modules: all of a machine but its
/// visible memory. It takes no memory after it is made. The calls that change the state as a step that is
/// done does, `retire`, `dispatch`, `send` and `write`, don't ask the rules and don't look back over the
/// trace: a machine calls them once it has decided in its own way. Contracts see a machine with no memory.
#[derive(Drop)]
pub struct Pipeline {
    pub(crate) config: Config,
    pub(crate) code: Code,
    pub(crate) sizes: Sizes,
    pub(crate) cores: Vec<CoreState>,
    pub(crate) trace: Trace,
    pub(crate) retired: Vec<u32>,
    pub(crate) dispatched: Vec<u32>,
    pub(crate) buffered: Vec<bool>,
    pub(crate) flight: Vec<u32>,
    pub(crate) durable: Vec<bool>,
    pub(crate) persisted: Vec<bool>,
    pub(crate) made: u64,
    pub(crate) steps: u64,
}

impl Model for Pipeline {
    ghost use Rattle.strand_rules.specs.Machine.{Machine};

    ghost Value = { Machine };

    ghost use Rattle.strand_rules.specs.Kept.{seen, IsKeptPipeline};

    ghost view = { seen };

    ghost invariant = { IsKeptPipeline };
}

impl Pipeline {
    /// The parts of the machine before its first step, with room for so many steps. It takes all the
    /// memory that the run will need of them.
    pub fn new(
        alloc: Global,
        config: &Config,
        image: &Image,
        steps: u64,
    ) -> Result<Pipeline, OutOfMemory>
        requires { steps ≤ MOST_STEPS }
        ensures { IfOk result (λ m. m
            ≡ with_memory no_memory (machine_at config.now image.now steps)) }
    {
        let room = steps as usize;
        let sizes = Sizes {
            volatile: image.volatile().len() as u32,
            persistent: image.persistent().len() as u32,
        };
        let cores = fresh_cores(alloc, image.entries())?;
        Ok(Pipeline {
            config: *config,
            code: Code::new(alloc, image.code())?,
            sizes,
            trace: Trace::new(alloc, room)?,
            retired: Vec::with_capacity(alloc, room)?,
            dispatched: zeros(alloc, cores.len())?,
            cores,
            buffered: Vec::with_capacity(alloc, room)?,
            flight: Vec::with_capacity(alloc, flight_limit(config))?,
            durable: Vec::with_capacity(alloc, room)?,
            persisted: Vec::with_capacity(alloc, room)?,
            made: 0,
            steps,
        })
    }

    /// How many steps were made: a step that is done or a bubble is one, a fault is none.
    pub fn made(&self) -> u64
        ensures { result ≡ self.now.made }
    {
        self.made
    }

    /// What the cores did so far, with room for all steps. Its persists are to the persistent words of the
    /// image.
    pub fn trace(&self) -> &Trace
        ensures events { result.now.events ≡ self.now.state.now.trace }
        ensures room { result.now.room ≡ self.now.steps }
        ensures placed { LieIn result.now.events self.now.program.sizes.persistent }
    {
        &self.trace
    }

    /// The cores that retired an instruction, in turn.
    pub fn retired(&self) -> &[u32]
        ensures { result.now ≡ self.now.state.retired }
    {
        &self.retired
    }

    /// Whether each persist is durable, by the numbers of the persists. The durable ones are
    /// downward-closed in persist order, and hold each that a core made before its last join.
    pub fn durable(&self) -> &[bool]
        ensures marks { result.now ≡ durable_persists self.now.state }
        ensures closed { IsDownwardClosed self.now.config.mode self.now.state.now.trace (durable_set self.now.state) }
        ensures joined { HoldsJoined self.now.state.now.trace (durable_set self.now.state) }
    {
        &self.persisted
    }

    /// The cores.
    pub fn cores(&self) -> &[CoreState]
        ensures cores { result.now ≡ self.now.state.now.cores }
        ensures few { length result.now ≤ MOST_CORES }
    {
        &self.cores
    }

    /// Core n.
    pub fn core(&self, n: u32) -> &CoreState
        requires { n < length self.now.state.now.cores }
        ensures { slice_get self.now.state.now.cores n ≡ Some result.now }
    {
        &self.cores[n as usize]
    }

    /// The settings.
    pub fn config(&self) -> Config
        ensures { result ≡ self.now.config }
    {
        self.config
    }

    /// How many words the two data regions have.
    pub fn sizes(&self) -> Sizes
        ensures { result ≡ self.now.program.sizes }
    {
        self.sizes
    }

    /// What holds of every machine: a run reaches its state, with some memory (`reached`), its lists fit its
    /// cores, its trace and its settings (`kept`), a trace can have its events (`fits`), and a core has a
    /// buffer (`buffers`).
    pub fn keeps(&self)
        ensures reached { IsReachedWithSome self.now.config self.now.program self.now.state }
        ensures kept { IsKeptMachine self.now }
        ensures fits { AllFit self.now.state.now.trace }
        ensures buffers { 0 < self.now.config.buffers }
    {
        let config = self.config;
        let _buffers = config.buffers;
        let _events = self.trace.events();
    }

    /// A step that changes nothing but the count of steps: a bubble of this cause.
    pub fn bubble(&mut self, cause: Cause) -> Turn
        requires { self.old.made < self.old.steps }
        ensures turn { result ≡ Turn.Bubble cause }
        ensures machine { self.new ≡ made_to self.old self.old.state }
    {
        self.made += 1;
        Turn::Bubble(cause)
    }
}

// The cores at their entries.
fn fresh_cores(alloc: Global, entries: &[u32]) -> Result<Vec<CoreState>, OutOfMemory>
    requires { All (λ e. e < MOST_CODE) entries.now }
    ensures { IfOk result (λ cores. cores.items ≡ map fresh entries.now) }
{
    let cores: Vec<CoreState> = entries.iter().map(|e| CoreState::new(*e)).collect(alloc)?;
    Ok(cores)
}

// So many zeros.
fn zeros(alloc: Global, count: usize) -> Result<Vec<u32>, OutOfMemory>
    ensures { IfOk result (λ zeros. zeros.items ≡ replicate count 0) }
{
    Ok(vec![in alloc; 0; count]?)
}

// How many requests can be in flight.
fn flight_limit(config: &Config) -> usize
    ensures { result ≡ config.now.flight }
{
    config.flight as usize
}

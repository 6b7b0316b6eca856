ghost use Rattle.std.specs.Prelude.{◌≡◌, ◌<◌, ◌^◌, length};
ghost use Rattle.strand_base.specs.declared.limits.TheConstants.{CORE_ROOM};
ghost use Rattle.strand_inputs.specs.declared.conflict.Conflict.TheVariants.{Tag};
ghost use Rattle.strand_events.specs.Fits.{AllFit};
ghost use Rattle.strand_events.specs.Trace.{core_event_is, strand_number, same_strand, epoch};
ghost use Rattle.strand_events.specs.Order.{set_of};
ghost use Rattle.strand_events.specs.Waits.{wait};
ghost use Rattle.strand_rules.specs.Cycle.{gone, is_item, buffer_of};
ghost use Rattle.strand_rules.specs.Next.{AreKeptWaits};

use crate::items::is_core_item;
use crate::pipeline::Pipeline;
use std::marker::Model;
use strand_base::CORE_ROOM;
use strand_events::Event;
use strand_inputs::{Config, Conflict, Mode};

// What the rules look at in a pipeline.
impl Pipeline {
    /// Which accesses of one core are ordered.
    pub(crate) fn mode(&self) -> Mode
        ensures { result ≡ self.now.config.mode }
    {
        let config = self.config;
        config.mode
    }

    /// The events, the oldest first.
    pub(crate) fn events(&self) -> &[Event]
        ensures events { result.now ≡ self.now.state.now.trace }
        ensures few { length result.now < 2 ^ 32 }
        ensures fits { AllFit result.now }
    {
        self.trace.events()
    }

    /// How many of its items core n has dispatched.
    pub(crate) fn gone(&self, n: u32) -> u32
        requires { n < length self.now.state.now.cores }
        ensures { result ≡ gone self.now.state n }
    {
        self.dispatched[n as usize]
    }

    /// Whether event k is an item of core n.
    pub(crate) fn is_item_at(&self, n: u32, k: usize) -> bool
        requires { k < length self.now.state.now.trace }
        ensures { result
            ≡ core_event_is (is_item self.now.config.mode) n self.now.state.now.trace k }
    {
        is_core_item(self.mode(), self.events()[k], n)
    }

    /// Whether event p is a durable persist.
    pub(crate) fn is_durable(&self, p: usize) -> bool
        requires { p < length self.now.state.now.trace }
        ensures { result ≡ set_of self.now.state.durable p }
    {
        self.durable[p]
    }

    /// The strand of event k, a number among the strands of its core.
    pub(crate) fn strand_of(&self, k: usize) -> u32
        requires { k < length self.now.state.now.trace }
        ensures { result ≡ strand_number self.now.config.mode self.now.state.now.trace k }
    {
        self.trace.strand_of(self.mode(), k)
    }

    /// Whether events a and b are of one strand.
    pub(crate) fn same_strand(&self, a: usize, b: usize) -> bool
        requires a { a < length self.now.state.now.trace }
        requires b { b < length self.now.state.now.trace }
        ensures { result ≡ same_strand self.now.config.mode self.now.state.now.trace a b }
    {
        self.events()[a].core() == self.events()[b].core() && self.strand_of(a) == self.strand_of(b)
    }

    /// The buffer of a strand.
    pub(crate) fn buffer_of(&self, strand: u32) -> u32
        ensures { result ≡ buffer_of self.now.config strand }
    {
        let config = self.config;
        strand % config.buffers
    }
}

/// What the rules of the plain machine look back over: a pipeline's events with their marks, and
/// the waits of the events. Contracts see the machine of the pipeline.
#[derive(Drop)]
pub(crate) struct Past<'a> {
    pub(crate) pipeline: &'a Pipeline,
    // the wait of each event under tag, and none under stall
    waits: &'a [[u32; CORE_ROOM]],
}

impl<'a> Model for Past<'a> {
    ghost use Rattle.strand_rules.specs.Machine.{Machine};
    ghost use Rattle.strand_rules.specs.Next.{AreKeptWaits};

    ghost Value = { Machine };

    ghost view = { λ p. p.pipeline.now };

    ghost invariant = { λ p. AreKeptWaits p.pipeline.now.config.conflict p.pipeline.now.config.mode
        p.pipeline.now.state.now.trace p.waits.now };
}

impl<'a> Past<'a> {
    /// The past of a pipeline, where these are the waits of its events.
    pub(crate) fn new(pipeline: &'a Pipeline, waits: &'a [[u32; CORE_ROOM]]) -> Past<'a>
        requires { AreKeptWaits pipeline.now.config.conflict pipeline.now.config.mode
            pipeline.now.state.now.trace waits.now }
        ensures { result ≡ pipeline.now }
    {
        Past { pipeline, waits }
    }

    /// The settings.
    pub(crate) fn config(&self) -> Config
        ensures { result ≡ self.now.config }
    {
        self.pipeline.config()
    }

    /// How an access waits that conflicts with one of another strand.
    pub(crate) fn conflict(&self) -> Conflict
        ensures { result ≡ self.now.config.conflict }
    {
        let config = self.config();
        config.conflict
    }

    /// The events, the oldest first.
    pub(crate) fn events(&self) -> &[Event]
        ensures events { result.now ≡ self.now.state.now.trace }
        ensures few { length result.now < 2 ^ 32 }
        ensures fits { AllFit result.now }
    {
        self.pipeline.events()
    }

    /// Whether each event is a buffered persist.
    pub(crate) fn buffered(&self) -> &[bool]
        ensures marks { result.now ≡ self.now.state.buffered }
        ensures length { length result.now ≡ length self.now.state.now.trace }
    {
        let pipeline = self.pipeline;
        &pipeline.buffered
    }

    /// Whether each event is a durable persist.
    pub(crate) fn durable(&self) -> &[bool]
        ensures marks { result.now ≡ self.now.state.durable }
        ensures length { length result.now ≡ length self.now.state.now.trace }
    {
        let pipeline = self.pipeline;
        &pipeline.durable
    }

    /// Whether events a and b are of one strand.
    pub(crate) fn same_strand(&self, a: usize, b: usize) -> bool
        requires a { a < length self.now.state.now.trace }
        requires b { b < length self.now.state.now.trace }
        ensures { result ≡ same_strand self.now.config.mode self.now.state.now.trace a b }
    {
        self.pipeline.same_strand(a, b)
    }

    /// The epoch of event k, a number within its strand.
    pub(crate) fn epoch_of(&self, k: usize) -> u32
        requires { k < length self.now.state.now.trace }
        ensures { result ≡ epoch self.now.config.mode self.now.state.now.trace k }
    {
        self.pipeline.trace().epoch_of(self.pipeline.mode(), k)
    }

    /// How many first persists of core c the wait of event a is for, under tag.
    pub(crate) fn wait_for(&self, c: usize, a: usize) -> u32
        requires tag { self.now.config.conflict ≡ Tag }
        requires core { c < CORE_ROOM }
        requires event { a < length self.now.state.now.trace }
        ensures { result ≡ wait self.now.config.mode self.now.state.now.trace c a }
    {
        let waits = self.waits;
        waits[a][c]
    }
}

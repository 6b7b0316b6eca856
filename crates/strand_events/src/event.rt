ghost use Rattle.std.specs.Prelude.{◌≡◌};
ghost use Rattle.strand_events.specs.Trace.{core_of, word_of, value_of, is_access, is_store, is_persist, is_barrier, is_new_strand, is_join};

/// What a core did that others can see or that orders persists. A `core` is numbered from 0, a
/// `word` is named by the address of its first byte, and `persist` says that a store is to the
/// persistent region, which begins at 0x40000000 (docs/persist-order.md).
#[derive(Clone, Copy, Debug, PartialEq, Eq)]
pub enum Event {
    Load {
        core: u32,
        word: u64,
    },
    // `persist` stands first, where it fills a gap: an event takes 24 bytes in place of 32.
    Store {
        persist: bool,
        core: u32,
        word: u64,
        value: u64,
    },
    Barrier {
        core: u32,
    },
    NewStrand {
        core: u32,
    },
    Join {
        core: u32,
    },
    Out {
        core: u32,
        value: u64,
    },
}

impl Event {
    /// The core that made it.
    pub fn core(&self) -> u32
        ensures { result ≡ core_of self.now }
    {
        match *self {
            Event::Load { core, .. } => core,
            Event::Store { core, .. } => core,
            Event::Barrier { core } => core,
            Event::NewStrand { core } => core,
            Event::Join { core } => core,
            Event::Out { core, .. } => core,
        }
    }

    /// The word that an access touches, and 0 where it is no access.
    pub fn word(&self) -> u64
        ensures { result ≡ word_of self.now }
    {
        match *self {
            Event::Load { word, .. } => word,
            Event::Store { word, .. } => word,
            _ => 0,
        }
    }

    /// The value that a store leaves in its word, and 0 where it is no store.
    pub fn value(&self) -> u64
        ensures { result ≡ value_of self.now }
    {
        match *self {
            Event::Store { value, .. } => value,
            _ => 0,
        }
    }

    /// Whether it is a load or a store.
    pub fn is_access(&self) -> bool
        ensures { result ≡ is_access self.now }
    {
        matches!(*self, Event::Load { .. } | Event::Store { .. })
    }

    /// Whether it is a store.
    pub fn is_store(&self) -> bool
        ensures { result ≡ is_store self.now }
    {
        matches!(*self, Event::Store { .. })
    }

    /// Whether it is a store to the persistent region.
    pub fn is_persist(&self) -> bool
        ensures { result ≡ is_persist self.now }
    {
        matches!(*self, Event::Store { persist: true, .. })
    }

    /// Whether it is a persist barrier.
    pub fn is_barrier(&self) -> bool
        ensures { result ≡ is_barrier self.now }
    {
        matches!(*self, Event::Barrier { .. })
    }

    /// Whether it begins a strand.
    pub fn is_new_strand(&self) -> bool
        ensures { result ≡ is_new_strand self.now }
    {
        matches!(*self, Event::NewStrand { .. })
    }

    /// Whether it is a join.
    pub fn is_join(&self) -> bool
        ensures { result ≡ is_join self.now }
    {
        matches!(*self, Event::Join { .. })
    }
}

// The limits of images, machines and schedules (docs/FORMATS.md), which code, definitions and clauses cite.

/// The most cores that an image has.
pub const MOST_CORES: u32 = 8;

/// The most code words that an image has.
pub const MOST_CODE: u32 = 131_072;

/// The most words that an image has in each region of data.
pub const MOST_DATA: u32 = 262_144;

/// The most symbols that an image has.
pub const MOST_SYMBOLS: u32 = 16_384;

/// The most bytes that the symbols of an image file take.
pub const MOST_NAMES: u32 = 1_146_880;

/// The most characters that the name of a symbol has.
pub const MOST_LABEL: usize = 64;

/// The most cores of an image file of version 1.
pub const FIRST_MOST_CORES: u32 = 4;

/// The most code words of an image file of version 1.
pub const FIRST_MOST_CODE: u32 = 65_536;

/// The most words in each region of data of an image file of version 1.
pub const FIRST_MOST_DATA: u32 = 131_072;

/// The most words that a memory, its caches and its tags take in each region of data.
pub const MOST_MEMORY: usize = 1_048_576;

/// The most steps that a schedule has, and so the most events of a trace.
pub const MOST_STEPS: u32 = 200_000;

/// The most generations of a run over crashes.
pub const MOST_GENERATIONS: usize = 16;

/// The most events of a trace whose needless barriers are looked for.
pub const MOST_ADVISED: usize = 2_000;

/// The most items that a core's queue holds.
pub const MOST_QUEUE: u32 = 64;

/// The most strand buffers that a core has.
pub const MOST_BUFFERS: u32 = 8;

/// The most places that a ring has.
pub const MOST_RING: u32 = 64;

/// The most requests in flight.
pub const MOST_FLIGHT: u32 = 64;

/// The most sets that a core's cache has.
pub const MOST_SETS: u32 = 64;

/// The most ways that a core's cache has.
pub const MOST_WAYS: u32 = 8;

/// How many cores the parts of a machine and the definitions of order have room for, one number for each.
pub const CORE_ROOM: usize = 8;

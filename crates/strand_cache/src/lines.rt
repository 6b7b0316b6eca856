/// The bytes of a cache line.
pub const LINE_BYTES: u64 = 64;

/// The words of a cache line, of eight bytes each.
pub const LINE_WORDS: usize = 8;

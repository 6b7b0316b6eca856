/// The address of the first code word, of four bytes.
pub const CODE_BASE: u64 = 0x1000_0000;

/// The address of the first volatile word, of eight bytes.
pub const VOLATILE_BASE: u64 = 0x2000_0000;

/// The address of the first persistent word, of eight bytes.
pub const PERSISTENT_BASE: u64 = 0x4000_0000;

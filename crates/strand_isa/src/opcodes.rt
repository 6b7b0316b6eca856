// The opcodes, bits 6..0 of a word, by the manual's names (RISC-V Unprivileged ISA, table of base opcodes).

/// The loads.
pub const LOAD: u32 = 0b0000011;

/// The fences.
pub const MISC_MEM: u32 = 0b0001111;

/// The operations on a register and an immediate, and the shifts by a constant.
pub const OP_IMM: u32 = 0b0010011;

/// The upper immediate that is added to the pc.
pub const AUIPC: u32 = 0b0010111;

/// What `OP_IMM` has, at 32 bits.
pub const OP_IMM_32: u32 = 0b0011011;

/// The stores.
pub const STORE: u32 = 0b0100011;

/// The operations on two registers.
pub const OP: u32 = 0b0110011;

/// The upper immediate that is loaded.
pub const LUI: u32 = 0b0110111;

/// What `OP` has, at 32 bits.
pub const OP_32: u32 = 0b0111011;

/// The conditional branches.
pub const BRANCH: u32 = 0b1100011;

/// The jump to a register plus an immediate.
pub const JALR: u32 = 0b1100111;

/// The jump by an offset.
pub const JAL: u32 = 0b1101111;

/// The call of the environment and the halt.
pub const SYSTEM: u32 = 0b1110011;

/// The opcode that is free for custom instructions: the persist instructions.
pub const CUSTOM_0: u32 = 0b0001011;

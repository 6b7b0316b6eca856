//! Instructions and their words: RV64I (RISC-V Unprivileged ISA) and three persist instructions.
//!
//! `check` tells whether each field is in its range, `encode` gives the word, `decode` reads it back, and
//! `print_instr` writes the text.
#![tactic(auto)]

mod checking;
mod decoding;
mod encoding;
mod fault;
mod finding;
mod instr;
mod opcodes;
mod ops;
mod printing;

pub use decoding::decode;
pub use encoding::encode;
pub use fault::{Field, FieldFault};
pub use finding::{
    branch_named, imm_named, load_named, reg_named, shift_named, store_named, upper_named,
};
pub use instr::Instr;
pub use ops::{BranchOp, ImmOp, LoadOp, RegOp, ShiftOp, StoreOp, UpperOp, amount_bound};
pub use printing::print_instr;

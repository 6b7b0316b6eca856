// The operation of each form that a word names, or that has the codes of an instruction's word.
ghost use Rattle.std.specs.Prelude.{◌≡◌, IfSome};
ghost use Rattle.std.specs.Str.{bytes_eq};
ghost use Rattle.strand_isa.specs.Ops.{HasCodes, branch_named, branch_row, has_codes, imm_named, imm_row, load_named, load_row, op_at, reg_named, reg_row, shift_named, shift_row, store_named, store_row, upper_named, upper_row};

use crate::ops::{
    BRANCH_OPS, BranchOp, Codes, IMM_OPS, ImmOp, LOAD_OPS, LoadOp, REG_OPS, RegOp, SHIFT_OPS,
    STORE_OPS, ShiftOp, StoreOp, UPPER_OPS, UpperOp, branch_row, imm_row, load_row, reg_row,
    shift_row, store_row, upper_row,
};

fn is_named(name: &str, word: &[u8]) -> bool
    ensures { result ≡ bytes_eq name.now word.now }
{
    name.as_bytes() == word
}

fn has_codes(codes: Codes, opcode: u32, funct3: u32, top: u32) -> bool
    ensures { result ≡ has_codes codes opcode funct3 top }
{
    codes.opcode == opcode && codes.funct3 == funct3 && codes.top == top
}

/// The operation on an upper immediate that a word names.
#[tactic(auto, unfolding(crate::specs::Ops::op_named))]
pub fn upper_named(word: &[u8]) -> Option<UpperOp>
    ensures { result ≡ upper_named word.now }
{
    UPPER_OPS
        .iter()
        .copied()
        .find(|op| is_named(upper_row(*op).0, word))
}

/// The branch that a word names.
#[tactic(auto, unfolding(crate::specs::Ops::op_named))]
pub fn branch_named(word: &[u8]) -> Option<BranchOp>
    ensures { result ≡ branch_named word.now }
{
    BRANCH_OPS
        .iter()
        .copied()
        .find(|op| is_named(branch_row(*op).0, word))
}

/// The load that a word names.
#[tactic(auto, unfolding(crate::specs::Ops::op_named))]
pub fn load_named(word: &[u8]) -> Option<LoadOp>
    ensures { result ≡ load_named word.now }
{
    LOAD_OPS
        .iter()
        .copied()
        .find(|op| is_named(load_row(*op).0, word))
}

/// The store that a word names.
#[tactic(auto, unfolding(crate::specs::Ops::op_named))]
pub fn store_named(word: &[u8]) -> Option<StoreOp>
    ensures { result ≡ store_named word.now }
{
    STORE_OPS
        .iter()
        .copied()
        .find(|op| is_named(store_row(*op).0, word))
}

/// The operation on a register and an immediate that a word names.
#[tactic(auto, unfolding(crate::specs::Ops::op_named))]
pub fn imm_named(word: &[u8]) -> Option<ImmOp>
    ensures { result ≡ imm_named word.now }
{
    IMM_OPS
        .iter()
        .copied()
        .find(|op| is_named(imm_row(*op).0, word))
}

/// The shift by a constant that a word names.
#[tactic(auto, unfolding(crate::specs::Ops::op_named))]
pub fn shift_named(word: &[u8]) -> Option<ShiftOp>
    ensures { result ≡ shift_named word.now }
{
    SHIFT_OPS
        .iter()
        .copied()
        .find(|op| is_named(shift_row(*op).0, word))
}

/// The operation on two registers that a word names.
#[tactic(auto, unfolding(crate::specs::Ops::op_named))]
pub fn reg_named(word: &[u8]) -> Option<RegOp>
    ensures { result ≡ reg_named word.now }
{
    REG_OPS
        .iter()
        .copied()
        .find(|op| is_named(reg_row(*op).0, word))
}

/// The operation on an upper immediate that has these codes.
#[tactic(auto, using(crate::proofs::HasCodes::found), unfolding(crate::specs::Ops::op_at))]
pub(crate) fn upper_with(opcode: u32) -> Option<UpperOp>
    ensures value { result ≡ op_at upper_row UPPER_OPS opcode 0 0 }
    ensures found { IfSome result (λ op. HasCodes (upper_row op).codes opcode 0 0) }
{
    UPPER_OPS
        .iter()
        .copied()
        .find(|op| has_codes(upper_row(*op).1, opcode, 0, 0))
}

/// The branch that has these codes.
#[tactic(auto, using(crate::proofs::HasCodes::found), unfolding(crate::specs::Ops::op_at))]
pub(crate) fn branch_with(opcode: u32, funct3: u32) -> Option<BranchOp>
    ensures value { result ≡ op_at branch_row BRANCH_OPS opcode funct3 0 }
    ensures found { IfSome result (λ op. HasCodes (branch_row op).codes opcode funct3 0) }
{
    BRANCH_OPS
        .iter()
        .copied()
        .find(|op| has_codes(branch_row(*op).1, opcode, funct3, 0))
}

/// The load that has these codes.
#[tactic(auto, using(crate::proofs::HasCodes::found), unfolding(crate::specs::Ops::op_at))]
pub(crate) fn load_with(opcode: u32, funct3: u32) -> Option<LoadOp>
    ensures value { result ≡ op_at load_row LOAD_OPS opcode funct3 0 }
    ensures found { IfSome result (λ op. HasCodes (load_row op).codes opcode funct3 0) }
{
    LOAD_OPS
        .iter()
        .copied()
        .find(|op| has_codes(load_row(*op).1, opcode, funct3, 0))
}

/// The store that has these codes.
#[tactic(auto, using(crate::proofs::HasCodes::found), unfolding(crate::specs::Ops::op_at))]
pub(crate) fn store_with(opcode: u32, funct3: u32) -> Option<StoreOp>
    ensures value { result ≡ op_at store_row STORE_OPS opcode funct3 0 }
    ensures found { IfSome result (λ op. HasCodes (store_row op).codes opcode funct3 0) }
{
    STORE_OPS
        .iter()
        .copied()
        .find(|op| has_codes(store_row(*op).1, opcode, funct3, 0))
}

/// The operation on a register and an immediate that has these codes.
#[tactic(auto, using(crate::proofs::HasCodes::found), unfolding(crate::specs::Ops::op_at))]
pub(crate) fn imm_with(opcode: u32, funct3: u32) -> Option<ImmOp>
    ensures value { result ≡ op_at imm_row IMM_OPS opcode funct3 0 }
    ensures found { IfSome result (λ op. HasCodes (imm_row op).codes opcode funct3 0) }
{
    IMM_OPS
        .iter()
        .copied()
        .find(|op| has_codes(imm_row(*op).1, opcode, funct3, 0))
}

/// The shift by a constant that has these codes.
#[tactic(auto, using(crate::proofs::HasCodes::found), unfolding(crate::specs::Ops::op_at))]
pub(crate) fn shift_with(opcode: u32, funct3: u32, top: u32) -> Option<ShiftOp>
    ensures value { result ≡ op_at shift_row SHIFT_OPS opcode funct3 top }
    ensures found { IfSome result (λ op. HasCodes (shift_row op).codes opcode funct3 top) }
{
    SHIFT_OPS
        .iter()
        .copied()
        .find(|op| has_codes(shift_row(*op).1, opcode, funct3, top))
}

/// The operation on two registers that has these codes.
#[tactic(auto, using(crate::proofs::HasCodes::found), unfolding(crate::specs::Ops::op_at))]
pub(crate) fn reg_with(opcode: u32, funct3: u32, top: u32) -> Option<RegOp>
    ensures value { result ≡ op_at reg_row REG_OPS opcode funct3 top }
    ensures found { IfSome result (λ op. HasCodes (reg_row op).codes opcode funct3 top) }
{
    REG_OPS
        .iter()
        .copied()
        .find(|op| has_codes(reg_row(*op).1, opcode, funct3, top))
}

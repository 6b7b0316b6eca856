// The operations of each form: the name of each in a text, and the numbers by which the manual tells it apart.
ghost use Rattle.std.specs.Prelude.{◌≡◌, ◌<◌, ◌==◌, if◌then◌else◌};
ghost use Rattle.strand_isa.specs.Ops.{AreSmallCodes, amount_bound, branch_row, imm_row, load_row, reg_row, shift_row, store_row, upper_row};

use crate::opcodes::{AUIPC, BRANCH, LOAD, LUI, OP, OP_32, OP_IMM, OP_IMM_32, STORE};

/// The operations on an upper immediate (RISC-V Unprivileged ISA, RV64I).
#[derive(Clone, Copy, Debug, PartialEq, Eq)]
pub enum UpperOp {
    Lui,
    Auipc,
}

/// The conditional branches: equal, not equal, less, at least; `u` compares without a sign.
#[derive(Clone, Copy, Debug, PartialEq, Eq)]
pub enum BranchOp {
    Beq,
    Bne,
    Blt,
    Bge,
    Bltu,
    Bgeu,
}

/// The loads of 1, 2, 4 and 8 bytes; `u` fills the register with zeros in place of the sign.
#[derive(Clone, Copy, Debug, PartialEq, Eq)]
pub enum LoadOp {
    Lb,
    Lh,
    Lw,
    Ld,
    Lbu,
    Lhu,
    Lwu,
}

/// The stores of the low 1, 2, 4 and 8 bytes of a register.
#[derive(Clone, Copy, Debug, PartialEq, Eq)]
pub enum StoreOp {
    Sb,
    Sh,
    Sw,
    Sd,
}

/// The operations on a register and an immediate; `w` works on the low 32 bits.
#[derive(Clone, Copy, Debug, PartialEq, Eq)]
pub enum ImmOp {
    Addi,
    Slti,
    Sltiu,
    Xori,
    Ori,
    Andi,
    Addiw,
}

/// The shifts by a constant: left, right, right with the sign; `w` works on the low 32 bits.
#[derive(Clone, Copy, Debug, PartialEq, Eq)]
pub enum ShiftOp {
    Slli,
    Srli,
    Srai,
    Slliw,
    Srliw,
    Sraiw,
}

/// The operations on two registers; `w` works on the low 32 bits.
#[derive(Clone, Copy, Debug, PartialEq, Eq)]
pub enum RegOp {
    Add,
    Sub,
    Sll,
    Slt,
    Sltu,
    Xor,
    Srl,
    Sra,
    Or,
    And,
    Addw,
    Subw,
    Sllw,
    Srlw,
    Sraw,
}

/// The numbers in a word by which its operation is told apart.
#[derive(Clone, Copy)]
pub(crate) struct Codes {
    /// Bits 6..0.
    pub(crate) opcode: u32,
    /// Bits 14..12, or 0 where the form has none.
    pub(crate) funct3: u32,
    /// Bits 31..26 of a shift by a constant, 31..25 of an operation on two registers; else 0.
    pub(crate) top: u32,
}

/// All operations on an upper immediate.
pub const UPPER_OPS: [UpperOp; 2] = [UpperOp::Lui, UpperOp::Auipc];

/// All branches.
pub const BRANCH_OPS: [BranchOp; 6] = [
    BranchOp::Beq,
    BranchOp::Bne,
    BranchOp::Blt,
    BranchOp::Bge,
    BranchOp::Bltu,
    BranchOp::Bgeu,
];

/// All loads.
pub const LOAD_OPS: [LoadOp; 7] = [
    LoadOp::Lb,
    LoadOp::Lh,
    LoadOp::Lw,
    LoadOp::Ld,
    LoadOp::Lbu,
    LoadOp::Lhu,
    LoadOp::Lwu,
];

/// All stores.
pub const STORE_OPS: [StoreOp; 4] = [StoreOp::Sb, StoreOp::Sh, StoreOp::Sw, StoreOp::Sd];

/// All operations on a register and an immediate.
pub const IMM_OPS: [ImmOp; 7] = [
    ImmOp::Addi,
    ImmOp::Slti,
    ImmOp::Sltiu,
    ImmOp::Xori,
    ImmOp::Ori,
    ImmOp::Andi,
    ImmOp::Addiw,
];

/// All shifts by a constant.
pub const SHIFT_OPS: [ShiftOp; 6] = [
    ShiftOp::Slli,
    ShiftOp::Srli,
    ShiftOp::Srai,
    ShiftOp::Slliw,
    ShiftOp::Srliw,
    ShiftOp::Sraiw,
];

/// All operations on two registers.
pub const REG_OPS: [RegOp; 15] = [
    RegOp::Add,
    RegOp::Sub,
    RegOp::Sll,
    RegOp::Slt,
    RegOp::Sltu,
    RegOp::Xor,
    RegOp::Srl,
    RegOp::Sra,
    RegOp::Or,
    RegOp::And,
    RegOp::Addw,
    RegOp::Subw,
    RegOp::Sllw,
    RegOp::Srlw,
    RegOp::Sraw,
];

impl Codes {
    fn new(opcode: u32, funct3: u32, top: u32) -> Codes
        ensures { result ≡ record { opcode = opcode; funct3 = funct3; top = top } }
    {
        Codes {
            opcode,
            funct3,
            top,
        }
    }
}

/// The name and the codes of an operation on an upper immediate.
pub(crate) fn upper_row(op: UpperOp) -> (&'static str, Codes)
    ensures name { result.0.now ≡ (upper_row op).name }
    ensures codes { result.1 ≡ (upper_row op).codes }
    ensures small { AreSmallCodes 128 result.1 }
{
    match op {
        UpperOp::Lui => ("lui", Codes::new(LUI, 0, 0)),
        UpperOp::Auipc => ("auipc", Codes::new(AUIPC, 0, 0)),
    }
}

/// The name and the codes of a branch.
pub(crate) fn branch_row(op: BranchOp) -> (&'static str, Codes)
    ensures name { result.0.now ≡ (branch_row op).name }
    ensures codes { result.1 ≡ (branch_row op).codes }
    ensures small { AreSmallCodes 128 result.1 }
{
    match op {
        BranchOp::Beq => ("beq", Codes::new(BRANCH, 0, 0)),
        BranchOp::Bne => ("bne", Codes::new(BRANCH, 1, 0)),
        BranchOp::Blt => ("blt", Codes::new(BRANCH, 4, 0)),
        BranchOp::Bge => ("bge", Codes::new(BRANCH, 5, 0)),
        BranchOp::Bltu => ("bltu", Codes::new(BRANCH, 6, 0)),
        BranchOp::Bgeu => ("bgeu", Codes::new(BRANCH, 7, 0)),
    }
}

/// The name and the codes of a load.
pub(crate) fn load_row(op: LoadOp) -> (&'static str, Codes)
    ensures name { result.0.now ≡ (load_row op).name }
    ensures codes { result.1 ≡ (load_row op).codes }
    ensures small { AreSmallCodes 128 result.1 }
{
    match op {
        LoadOp::Lb => ("lb", Codes::new(LOAD, 0, 0)),
        LoadOp::Lh => ("lh", Codes::new(LOAD, 1, 0)),
        LoadOp::Lw => ("lw", Codes::new(LOAD, 2, 0)),
        LoadOp::Ld => ("ld", Codes::new(LOAD, 3, 0)),
        LoadOp::Lbu => ("lbu", Codes::new(LOAD, 4, 0)),
        LoadOp::Lhu => ("lhu", Codes::new(LOAD, 5, 0)),
        LoadOp::Lwu => ("lwu", Codes::new(LOAD, 6, 0)),
    }
}

/// The name and the codes of a store.
pub(crate) fn store_row(op: StoreOp) -> (&'static str, Codes)
    ensures name { result.0.now ≡ (store_row op).name }
    ensures codes { result.1 ≡ (store_row op).codes }
    ensures small { AreSmallCodes 128 result.1 }
{
    match op {
        StoreOp::Sb => ("sb", Codes::new(STORE, 0, 0)),
        StoreOp::Sh => ("sh", Codes::new(STORE, 1, 0)),
        StoreOp::Sw => ("sw", Codes::new(STORE, 2, 0)),
        StoreOp::Sd => ("sd", Codes::new(STORE, 3, 0)),
    }
}

/// The name and the codes of an operation on a register and an immediate.
pub(crate) fn imm_row(op: ImmOp) -> (&'static str, Codes)
    ensures name { result.0.now ≡ (imm_row op).name }
    ensures codes { result.1 ≡ (imm_row op).codes }
    ensures small { AreSmallCodes 128 result.1 }
{
    match op {
        ImmOp::Addi => ("addi", Codes::new(OP_IMM, 0, 0)),
        ImmOp::Slti => ("slti", Codes::new(OP_IMM, 2, 0)),
        ImmOp::Sltiu => ("sltiu", Codes::new(OP_IMM, 3, 0)),
        ImmOp::Xori => ("xori", Codes::new(OP_IMM, 4, 0)),
        ImmOp::Ori => ("ori", Codes::new(OP_IMM, 6, 0)),
        ImmOp::Andi => ("andi", Codes::new(OP_IMM, 7, 0)),
        ImmOp::Addiw => ("addiw", Codes::new(OP_IMM_32, 0, 0)),
    }
}

/// The name and the codes of a shift by a constant.
pub(crate) fn shift_row(op: ShiftOp) -> (&'static str, Codes)
    ensures name { result.0.now ≡ (shift_row op).name }
    ensures codes { result.1 ≡ (shift_row op).codes }
    ensures small { AreSmallCodes 64 result.1 }
{
    match op {
        ShiftOp::Slli => ("slli", Codes::new(OP_IMM, 1, 0b000000)),
        ShiftOp::Srli => ("srli", Codes::new(OP_IMM, 5, 0b000000)),
        ShiftOp::Srai => ("srai", Codes::new(OP_IMM, 5, 0b010000)),
        ShiftOp::Slliw => ("slliw", Codes::new(OP_IMM_32, 1, 0b000000)),
        ShiftOp::Srliw => ("srliw", Codes::new(OP_IMM_32, 5, 0b000000)),
        ShiftOp::Sraiw => ("sraiw", Codes::new(OP_IMM_32, 5, 0b010000)),
    }
}

/// The name and the codes of an operation on two registers.
pub(crate) fn reg_row(op: RegOp) -> (&'static str, Codes)
    ensures name { result.0.now ≡ (reg_row op).name }
    ensures codes { result.1 ≡ (reg_row op).codes }
    ensures small { AreSmallCodes 128 result.1 }
{
    match op {
        RegOp::Add => ("add", Codes::new(OP, 0, 0b0000000)),
        RegOp::Sub => ("sub", Codes::new(OP, 0, 0b0100000)),
        RegOp::Sll => ("sll", Codes::new(OP, 1, 0b0000000)),
        RegOp::Slt => ("slt", Codes::new(OP, 2, 0b0000000)),
        RegOp::Sltu => ("sltu", Codes::new(OP, 3, 0b0000000)),
        RegOp::Xor => ("xor", Codes::new(OP, 4, 0b0000000)),
        RegOp::Srl => ("srl", Codes::new(OP, 5, 0b0000000)),
        RegOp::Sra => ("sra", Codes::new(OP, 5, 0b0100000)),
        RegOp::Or => ("or", Codes::new(OP, 6, 0b0000000)),
        RegOp::And => ("and", Codes::new(OP, 7, 0b0000000)),
        RegOp::Addw => ("addw", Codes::new(OP_32, 0, 0b0000000)),
        RegOp::Subw => ("subw", Codes::new(OP_32, 0, 0b0100000)),
        RegOp::Sllw => ("sllw", Codes::new(OP_32, 1, 0b0000000)),
        RegOp::Srlw => ("srlw", Codes::new(OP_32, 5, 0b0000000)),
        RegOp::Sraw => ("sraw", Codes::new(OP_32, 5, 0b0100000)),
    }
}

/// The number of amounts by which a shift can go: 32 at 32 bits, else 64.
pub fn amount_bound(op: ShiftOp) -> u8
    ensures code { result ≡ amount_bound op }
    ensures small { result < 65 }
{
    if shift_row(op).1.opcode == OP_IMM_32 {
        32
    } else {
        64
    }
}

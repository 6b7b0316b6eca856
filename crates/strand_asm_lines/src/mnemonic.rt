use strand_isa::{BranchOp, ImmOp, LoadOp, RegOp, ShiftOp, StoreOp, UpperOp};

/// The first word of an instruction: an operation of a form, an instruction that is its own form, or a
/// short form (RISC-V Unprivileged ISA, RV64I, and three persist instructions).
#[derive(Clone, Copy, Debug, PartialEq, Eq)]
pub enum Mnemonic {
    Upper(UpperOp),
    Jal,
    Jalr,
    Branch(BranchOp),
    Load(LoadOp),
    Store(StoreOp),
    Imm(ImmOp),
    Shift(ShiftOp),
    Reg(RegOp),
    Fence,
    Ecall,
    Ebreak,
    PersistBarrier,
    NewStrand,
    JoinStrand,
    Nop,
    Ret,
    Mv,
    Li,
    La,
    J,
}

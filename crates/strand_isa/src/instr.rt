use crate::ops::{BranchOp, ImmOp, LoadOp, RegOp, ShiftOp, StoreOp, UpperOp};

/// An instruction of RV64I (RISC-V Unprivileged ISA) or one of the three persist instructions.
///
/// Any value of the field types can be written; `check` tells whether it has a word. Registers are 0 to 31,
/// offsets and immediates are in bytes and signed but for `Upper`.
#[derive(Clone, Copy, Debug, PartialEq, Eq)]
pub enum Instr {
    /// An upper immediate, 0 to 1,048,575: the register gets it times 4,096.
    Upper {
        op: UpperOp,
        rd: u8,
        imm: u32,
    },
    /// A jump by `offset`, which is even, -1,048,576 to 1,048,574.
    Jal {
        rd: u8,
        offset: i32,
    },
    /// A jump to `rs1` plus `imm`, which is -2,048 to 2,047.
    Jalr {
        rd: u8,
        rs1: u8,
        imm: i32,
    },
    /// A branch by `offset`, which is even, -4,096 to 4,094.
    Branch {
        op: BranchOp,
        rs1: u8,
        rs2: u8,
        offset: i32,
    },
    /// A load from `rs1` plus `imm`, which is -2,048 to 2,047.
    Load {
        op: LoadOp,
        rd: u8,
        rs1: u8,
        imm: i32,
    },
    /// A store of `rs2` to `rs1` plus `imm`, which is -2,048 to 2,047.
    Store {
        op: StoreOp,
        rs1: u8,
        rs2: u8,
        imm: i32,
    },
    /// An operation on `rs1` and `imm`, which is -2,048 to 2,047.
    Imm {
        op: ImmOp,
        rd: u8,
        rs1: u8,
        imm: i32,
    },
    /// A shift of `rs1` by `amount`, which is 0 to 63, or 0 to 31 for the `w` forms.
    Shift {
        op: ShiftOp,
        rd: u8,
        rs1: u8,
        amount: u8,
    },
    /// An operation on `rs1` and `rs2`.
    Reg {
        op: RegOp,
        rd: u8,
        rs1: u8,
        rs2: u8,
    },
    /// A fence; `bits` are the top twelve bits of the word, 0 to 4,095, which have no effect here.
    Fence {
        rd: u8,
        rs1: u8,
        bits: u16,
    },
    /// A call of the environment.
    Ecall,
    /// A halt.
    Ebreak,
    /// A persist barrier: ends an epoch of the strand.
    PersistBarrier,
    /// Begins a new strand.
    NewStrand,
    /// Waits until all earlier persists of the core are durable.
    JoinStrand,
}

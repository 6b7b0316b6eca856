use crate::life::Trap;
use strand_isa::{LoadOp, StoreOp};

/// What an instruction does, with the values that it reads from registers.
#[derive(Clone, Copy)]
pub enum Effect {
    /// A register gets a value.
    Write {
        rd: u8,
        value: u64,
    },
    /// A register gets the place after the instruction, and the core goes to another.
    Jump {
        rd: u8,
        link: u64,
        target: u64,
    },
    /// The core goes to another place.
    Goto {
        target: u64,
    },
    /// A register gets bytes of memory.
    LoadFrom {
        op: LoadOp,
        rd: u8,
        address: u64,
    },
    /// Memory gets the low bytes of a value.
    StoreTo {
        op: StoreOp,
        address: u64,
        value: u64,
    },
    /// An epoch ends.
    Barrier,
    /// A strand begins.
    BeginStrand,
    /// The core waits for its persists.
    Join,
    /// The environment is called, with what registers x17 and x10 hold.
    Call {
        number: u64,
        value: u64,
    },
    /// A value is put out.
    Out {
        value: u64,
    },
    /// The core halts.
    Halt,
    /// Only the pc changes.
    Nothing,
    /// The instruction can't be done.
    Traps(Trap),
}

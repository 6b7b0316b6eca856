use thiserror::Error;

/// What is wrong with a line: its bytes or its label, the length of its label, a number, a register, its first word, or how many
/// operands it has.
#[derive(Clone, Copy, Debug, PartialEq, Eq)]
pub enum LineKind {
    BadToken,
    LongName,
    BadNumber,
    BadRegister,
    UnknownName,
    MissingOperand,
    ExtraOperand,
}

/// A line's first fault, with the line's number.
#[derive(Clone, Copy, Debug, PartialEq, Eq)]
pub struct LineFault {
    pub line: u32,
    pub kind: LineKind,
}

/// Why a line was not read.
#[derive(Clone, Copy, Debug, PartialEq, Eq, Error)]
pub enum LineError {
    #[error("{0:?}")]
    Fault(LineFault),
    #[error("out of memory")]
    OutOfMemory,
}

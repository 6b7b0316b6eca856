use strand_asm_lines::LineFault;
use strand_image::Quantity;
use thiserror::Error;

/// Why a text is no program. Lines are counted from 1.
#[derive(Clone, Copy, Debug, PartialEq, Eq, Error)]
pub enum AsmFault {
    /// A line is none, or an instruction stands among data, or `.space` in the code.
    #[error("{0:?}")]
    Line(LineFault),
    /// The label of a line was defined on line `first`.
    #[error("the label of line {line} was defined on line {first}")]
    Duplicate { line: u32, first: u32 },
    /// No label has the name that a line uses, or none of the code where one has to stand there.
    #[error("line {line} uses a name that no label has")]
    Undefined { line: u32 },
    /// A number, an offset in bytes or an entry does not fit its field.
    #[error("{value} does not fit on line {line}")]
    Range { line: u32, value: i128 },
    /// The text has too many or too few of a quantity.
    #[error("{what:?} has {number}, which is outside its limits")]
    Limit { what: Quantity, number: u64 },
    #[error("out of memory")]
    OutOfMemory,
}

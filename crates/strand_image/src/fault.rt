use crate::quantity::Quantity;
use thiserror::Error;

/// Why bytes are no image file, or lists no image. Lengths are in bytes, a core's entry is the number of
/// a code word, and symbols are counted from 0.
#[derive(Clone, Copy, Debug, PartialEq, Eq, Error)]
pub enum ImageFault {
    #[error("the file does not begin with STRANDP1 or STRANDP2")]
    Magic,
    #[error("the file has {have} bytes and needs {need}")]
    Short { need: u64, have: u64 },
    #[error("the file has {have} bytes where {need} are its length")]
    Long { need: u64, have: u64 },
    #[error("{field:?} has {value}, which is outside its limits")]
    Limit { field: Quantity, value: u64 },
    #[error("core {core} begins at {value}, where no code word is")]
    Entry { core: u32, value: u32 },
    #[error("symbol {index} is not spelt, or breaks a rule")]
    Symbol { index: u32 },
    #[error("out of memory")]
    OutOfMemory,
}

//! The assembler: the image of a text, or its first fault. The language is in docs/assembler.md.
#![tactic(auto)]

mod addition;
mod assembling;
mod coded;
mod coding;
mod data_lines;
mod draft;
mod drafting;
mod fault;
mod labels;
mod laying;
mod layout;
mod listing;
mod names;
mod number_lines;
mod operands;
mod place;
mod reading;
mod targets;

pub use assembling::assemble;
pub use fault::AsmFault;
pub use listing::list;

//! One line of assembler text: its parts, or its first fault. The grammar is in docs/assembler.md.
#![tactic(auto)]

mod bytes;
mod fault;
mod line;
mod mnemonic;
mod name;
mod operand;
mod reading;
mod table;
mod token;

pub use fault::{LineError, LineFault, LineKind};
pub use line::{Body, Line, Operand, Pattern, Section};
pub use mnemonic::Mnemonic;
pub use name::Name;
pub use reading::read_line;

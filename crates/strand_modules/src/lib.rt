//! The bank of memory modules that holds the persistent words of a run (docs/bank.md).
#![tactic(auto)]

mod accepted;
mod bank;
mod calls;
mod copying;
mod faults;
mod founding;
mod migration;
mod objects;
mod parts;
mod ram_module;
mod refusals;
mod replacing;
mod spare;
mod transfer;

pub use accepted::Accepted;
pub use bank::{MOST_MODULES, ModuleBank};
pub use faults::{
    BankFault, BeginFault, ReadAllFault, Refused, ReplaceFault, SpareFault, SpareRefused,
};
pub use ram_module::RamModule;
pub use refusals::{AtModule, Refusals};

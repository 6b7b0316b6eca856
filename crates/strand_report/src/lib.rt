//! The texts that the simulator puts: the report of a run, verdicts, traces, and the lines of
//! faults (docs/FORMATS.md).
#![tactic(auto)]

mod bubbles;
mod caches;
mod cores;
mod durable;
mod fields;
mod file_fault;
mod generation;
mod members;
mod module_fault;
mod outs;
mod refusal;
mod refusal_lines;
mod run;
mod summary;
mod trace;
mod verdict;
mod words;

pub use durable::count_marked;
pub use file_fault::write_file_fault;
pub use generation::write_generation;
pub use module_fault::{ModuleFault, ModulePhase, write_module_fault};
pub use refusal::{ContentFault, Refusal};
pub use refusal_lines::write_refusal;
pub use run::{RunView, write_run};
pub use summary::{Summary, write_generated, write_summary};
pub use trace::write_trace;
pub use verdict::write_verdict;

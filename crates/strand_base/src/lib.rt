//! What everything stands on: the world outside as traits, with objects in memory and the real
//! ones, texts as lines, words and numbers, and numbers in bytes.
#![tactic(auto)]

mod decimal;
mod digits;
mod fault_plan;
mod files;
mod held_files;
mod hexadecimal;
mod host_files;
mod host_sink;
mod kept_bytes;
mod limits;
mod lines;
mod little_endian;
mod memory_files;
mod memory_sink;
mod module;
mod names;
mod never_files;
mod never_sink;
mod numbers;
mod out_of_memory;
mod putting;
mod regions;
mod sink;
mod writing;

pub use decimal::{NumberFault, print_decimal, read_decimal};
pub use fault_plan::FaultPlan;
pub use files::{FetchFault, Files};
pub use hexadecimal::{hex_digits, print_hex16, read_hex, read_hex16};
pub use host_files::HostFiles;
pub use host_sink::HostSink;
pub use limits::{
    CORE_ROOM, FIRST_MOST_CODE, FIRST_MOST_CORES, FIRST_MOST_DATA, MOST_ADVISED, MOST_BUFFERS,
    MOST_CODE, MOST_CORES, MOST_DATA, MOST_FLIGHT, MOST_GENERATIONS, MOST_LABEL, MOST_MEMORY,
    MOST_NAMES, MOST_QUEUE, MOST_RING, MOST_SETS, MOST_STEPS, MOST_SYMBOLS, MOST_WAYS,
};
pub use lines::{LineSpan, content, next_line, next_word};
pub use little_endian::{put_u32s, put_u64s, read_u32s, read_u64s, u32_at};
pub use memory_files::MemoryFiles;
pub use memory_sink::MemorySink;
pub use module::{ModuleFailed, PmModule};
pub use names::{is_label, is_name};
pub use never_files::NeverFiles;
pub use never_sink::NeverSink;
pub use numbers::Numbers;
pub use out_of_memory::OutOfMemory;
pub use putting::put_all;
pub use regions::{CODE_BASE, PERSISTENT_BASE, VOLATILE_BASE};
pub use sink::{Sink, SinkFailed};
pub use writing::{put, put_line};

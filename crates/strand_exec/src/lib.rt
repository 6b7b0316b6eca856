//! The instruction table: what one instruction of a core asks of the world, and the core after it.
#![tactic(auto)]

mod accesses;
mod arithmetic;
mod code;
mod core_state;
mod effect;
mod finishing;
mod flat_memory;
mod life;
mod planned;
mod planning;
mod rows;
mod sizes;

pub use accesses::merged;
pub use code::Code;
pub use core_state::CoreState;
pub use effect::Effect;
pub use finishing::{apply, finish};
pub use flat_memory::FlatMemory;
pub use life::{Life, Trap};
pub use planned::Plan;
pub use planning::{asked, plan};
pub use sizes::Sizes;

//! The inputs that are made from a number: a program, a machine and a schedule. docs/FORMATS.md, "Generator", has
//! the rule.
#![tactic(auto)]

mod draws;
mod generated;
mod program;
mod schedule;

pub use generated::{Generated, generate};

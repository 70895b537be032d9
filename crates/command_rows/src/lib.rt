//! Command lines as rows: what a program has of its commands and of their options, and what the words of a command line say of them.
#![tactic(auto)]

mod options;
mod parser;
mod rows;
mod usage;
mod wrong;

pub use options::Options;
pub use rows::{CommandRow, Front, OptionRow, Shape};
pub use usage::Usage;
pub use wrong::Wrong;

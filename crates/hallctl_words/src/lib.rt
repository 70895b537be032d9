//! The command line of the operator's client: its commands and their options as rows, and what the words of a command line ask for.
#![tactic(auto)]

mod asked;
mod bash_completion;
mod command_line;
mod hall;
mod halls;
mod listings;
mod machines;
mod names;
mod options;
mod spans;
mod values;
mod waiting;

pub use asked::{Form, Line, Listing, MachineList, NewOperator, Waited, Which, Wish};
pub use bash_completion::completion;
pub use command_line::{LineFault, read};

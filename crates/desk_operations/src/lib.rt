//! What an operator does to a hall from a command line: one function for each thing, over the hall's store or desk, a reader
//! and a writer.
#![tactic(auto)]

mod frame_input;
mod frames;
mod imports;
mod reports;
mod requests;
mod writing;

pub use frame_input::{Input, one_reading, parse, read_input};
pub use frames::{Exit, frame_run};
pub use imports::{Imported, import};
pub use reports::{export, report};
pub use requests::request;
pub use writing::write_text;

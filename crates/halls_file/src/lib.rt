//! A file that names halls: of each its desk, and the file of the operator's token. And how the files of operators are read.
#![tactic(auto)]

mod entries;
mod files;
mod halls_fault;
mod paths;

pub use entries::{HallEntry, MAX_HALLS, parse};
pub use files::{FileFault, file_octets, input_octets, is_open_to_others};
pub use halls_fault::HallsFault;
pub use paths::beside;

//! The file of a hall: it is made, carried over from the first schema, and opened for a task over the hall's store.
#![tactic(auto)]

mod fault;
mod file;
mod joining;

pub use fault::FileFault;
pub use file::{Ended, StoreTask, create, migrate, over};
pub use joining::{Unjoined, one_file};

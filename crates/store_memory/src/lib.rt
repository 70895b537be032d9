//! A store of a hall in memory.
#![tactic(auto)]

mod counting;
mod creating;
mod expiring;
mod hashed;
mod indexing;
mod listing;
mod memory;
mod reading;
mod store;
mod table;
mod versions;
mod writing;

pub use memory::MemoryStore;

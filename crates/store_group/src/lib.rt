//! A group of changes over a store: they are held in memory, read back, and written by one change or not at all.
#![tactic(auto)]

mod group;
mod keyed;
mod keys;
mod store;

pub use group::Group;

//! The promise of a store of halls, copies of row writes for stores that keep them, and a store for tests that fails where it is told to.
#![tactic(auto)]

mod cached;
mod copying;
mod count;
mod group_store;
mod known;
mod lists;
mod probe;
mod store;

pub use cached::Cached;
pub use copying::copies;
pub use count::Count;
pub use group_store::GroupStore;
pub use probe::{Call, Probe};
pub use store::{HallStore, Unavailable};

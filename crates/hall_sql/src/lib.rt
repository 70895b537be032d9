//! A hall in SQLite: the store whose tables are those of a database.
#![tactic(auto)]

mod applying;
mod asking;
mod counting;
mod expiring;
mod groups;
mod machines;
mod opening;
mod removal;
mod store;
mod writes;

pub use opening::Refused;
pub use store::SqlStore;

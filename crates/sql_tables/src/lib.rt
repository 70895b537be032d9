//! The file of a hall: its tables are made, or looked at before they are used.
#![tactic(auto)]

mod creating;
mod fault;
mod indexes;
mod looking;
mod making;
mod migrating;
mod opening;
mod running;

pub use creating::create_tables;
pub use fault::{CreateFault, OpenFault};
pub use migrating::{Migrated, migrate_tables};
pub use opening::look_at_tables;

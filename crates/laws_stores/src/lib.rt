//! The headline over each store: what came to a new hall in memory, and to one in SQLite, also over a stop, and to one that was carried
//! over from the first schema.
#![tactic(auto)]

mod laws;
mod migrating;
mod stops;

pub use laws::{memory_keeps_the_headline, sqlite_keeps_the_headline};
pub use migrating::migrated_goes_on;
pub use stops::{open_again, stops_leave_ends, stops_leave_ends_of_groups};

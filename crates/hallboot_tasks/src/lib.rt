//! The tasks over the store of an open hall, and the service.
#![tactic(auto)]

mod backups;
mod carrying;
mod lines;
mod notices;
mod outlet;
mod random_block;
mod serving;
mod stamps;
mod sums;
mod suspended;
mod turn_lines;

pub use carrying::{carried_out, served};
pub use notices::{tell, tell_of_fault};
pub use sums::{HallSum, sum_of, sum_text};
pub use suspended::Suspended;
pub use turn_lines::turn_line;

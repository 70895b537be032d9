//! The desk: what comes is decided on a hall's rows, written to the store, and answered.
#![tactic(auto)]

mod account;
mod answering;
mod arrival;
mod carrying;
mod desk;
mod grouping;
mod laws;
mod listing;
mod moved;
mod octets;
mod planning;
mod plans;
mod reading;
mod requests;
mod serving;
mod typed;
mod writing;

pub use account::{Account, Came, Notes};
pub use arrival::{Answer, Arrival, Input, Stamp, What};
pub use desk::Desk;
pub use grouping::Answered;
pub use laws::{answered_are_given, histories_go_on, histories_keep_the_laws, items_are_steps};
pub use moved::{Moved, Seen};
pub use serving::Served;

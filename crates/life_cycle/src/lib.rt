//! The life cycle of machines: the table of its steps, who may act, entering a status, and its laws.
#![tactic(auto)]

mod action;
mod entering;
mod laws;
mod signal;
mod step;

pub use action::{Action, Who, may};
pub use entering::{Entered, Exhausted, enter};
pub use laws::{
    fourth_boots, limits_expire, one_transition, one_who, orders_by_target, remembered_in_rescue,
    remembered_statuses, rescue_returns, steps_change_status, ways_from_deployed, ways_to_deployed,
    ways_to_deploying, ways_to_disk_erasing, ways_to_failed_disk_erasing,
};
pub use signal::Signal;
pub use step::{Step, next};

//! Signals.

use crate::action::Action;
use hall_types::{Outcome, Progress};

/// What can move a machine from one status to another.
#[derive(Clone, Copy)]
pub enum Signal {
    /// An operator takes an action.
    By(Action),
    /// The current boot reports how far it has come.
    Report(Progress),
    /// The power operator answers the waiting order.
    Answer(Outcome),
    /// The deadline of the status has come.
    Expired,
    /// A fourth boot is asked for in one status.
    FourthBoot,
}

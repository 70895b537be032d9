//! Machines as the desk lists them.
use hall_types::{Interface, Machine};

/// A machine of a list, with its interfaces in the order of the list. What a list doesn't say of a machine is as in a new one.
#[derive(Drop)]
pub struct Listed {
    pub machine: Machine,
    pub interfaces: Vec<Interface>,
}

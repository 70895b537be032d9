//! What is known of all halls.
use crate::hall::Hall;
use std::alloc::Global;

/// All halls that are asked for.
#[derive(Drop)]
pub struct State {
    /// When the program began, in seconds since 1970.
    pub began: u64,
    /// Whether halls have names by which hallctl finds their desks.
    pub is_named: bool,
    pub halls: Vec<Hall>,
}

impl State {
    /// No hall yet.
    pub fn new(alloc: Global, began: u64, is_named: bool) -> State {
        State {
            began,
            is_named,
            halls: Vec::new(alloc),
        }
    }
}

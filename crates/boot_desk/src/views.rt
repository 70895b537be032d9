//! The rows of a hall that one decision needs.
use hall_types::{Boot, Image, Machine, Numbers, Order};

/// A machine, with the rows that a decision about it may need. They are rows of one hall.
#[derive(Drop)]
pub struct BootView {
    pub machine: Machine,
    /// Its current boot.
    pub boot: Option<Boot>,
    /// The order that it waits for.
    pub order: Option<Order>,
    /// The live image of its architecture.
    pub live: Option<Image>,
    /// The image that it was deployed with.
    pub image: Option<Image>,
    pub numbers: Numbers,
}

/// The boot that a report names, and its machine.
#[derive(Drop)]
pub struct ReportView {
    pub asked: Boot,
    pub at: BootView,
}

/// The order that an answer names, and its machine.
#[derive(Drop)]
pub struct OrderView {
    pub asked: Order,
    pub at: BootView,
}

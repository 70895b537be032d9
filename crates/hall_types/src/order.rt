//! Power orders.
use crate::kinds::{OrderKind, OrderStage};
use crate::number::Number;

/// An order to the power program to switch a machine's power.
#[derive(Clone, Copy, PartialEq, Eq)]
pub struct Order {
    pub number: Number,
    pub machine: Number,
    pub kind: OrderKind,
    pub stage: OrderStage,
}

//! Power orders that wait.
use crate::hall::Hall;
use crate::kinds::order_kind;
use crate::listed::Listed;
use std::alloc::{AllocError, Global};

/// An order that a machine waits for.
#[derive(Clone, Copy)]
pub struct Waiting<'s> {
    pub number: u64,
    pub one: &'s Listed,
    /// For how many seconds it was seen in lists, up to the last one.
    pub waits: u64,
}

impl Waiting<'_> {
    /// `off` or `cycle`.
    pub fn kind(&self) -> &'static str {
        order_kind(self.one.machine.status).text()
    }
}

/// The orders that machines of a hall wait for, by number.
pub fn waiting_orders<'s>(alloc: Global, hall: &'s Hall) -> Result<Vec<Waiting<'s>>, AllocError> {
    let mut orders = Vec::new(alloc);
    let Some(list) = &hall.list else {
        return Ok(orders);
    };
    for order in hall.orders.as_slice() {
        if let Some(one) = list.machines.get(order.place) {
            let (number, waits) = (order.number.get(), list.at.saturating_sub(order.at));
            orders.push(Waiting { number, one, waits })?;
        }
    }
    Ok(orders)
}

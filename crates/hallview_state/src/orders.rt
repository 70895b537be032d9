//! Power orders that machines wait for. A list names a machine's order; what it asks follows from the machine's status.
use crate::listed::Listed;
use hall_types::Number;
use std::alloc::{AllocError, Global};

/// An order that a machine of a list waits for.
#[derive(Clone, Copy)]
pub struct Seen {
    pub number: Number,
    /// When it was first seen in a list, in seconds since 1970.
    pub at: u64,
    /// The place of its machine in the list.
    pub place: usize,
}

fn number_of(order: &Seen) -> u64 {
    order.number.get()
}

/// When an order was first seen, in a list whose numbers rise.
pub(crate) fn seen_at(seen: &[Seen], number: Number) -> Option<u64> {
    let place = seen.binary_search_by_key(&number.get(), number_of);
    let one = seen.get(place.ok()?)?;
    Some(one.at)
}

/// The orders that machines wait for, by number, each with when it was first seen.
pub(crate) fn orders_of(
    alloc: Global,
    before: &[Seen],
    machines: &[Listed],
    now: u64,
) -> Result<Vec<Seen>, AllocError> {
    let mut orders = Vec::new(alloc);
    for (place, one) in machines.iter().enumerate() {
        if let Some(number) = one.machine.waiting {
            let at = seen_at(before, number).unwrap_or(now);
            orders.push(Seen { number, at, place })?;
        }
    }
    orders.sort_by_key(number_of)?;
    Ok(orders)
}

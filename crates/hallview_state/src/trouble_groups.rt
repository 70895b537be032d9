//! What is in trouble in a hall, grouped by what is to be done.
use crate::hall::Hall;
use crate::kinds::{StatusKind, is_passed};
use crate::listed::Listed;
use crate::query::Field;
use crate::statuses::advice;
use crate::waiting::Waiting;
use hall_types::{Erase, Machine, Status};
use std::alloc::{AllocError, Global};
use std::cmp::Ordering;

/// For how many seconds an order may wait before it is in trouble.
const LONG_WAIT: u64 = 300;

/// Why machines or orders are in trouble.
#[derive(Clone, Copy, PartialEq, Eq)]
pub enum Cause {
    /// They have this status.
    Failed(Status),
    /// Their deadlines have passed.
    Deadline,
    /// The orders have waited for long.
    Orders,
}

/// Machines or orders in trouble for the same cause, about which the same is done.
#[derive(Drop)]
pub struct Group<'s> {
    pub hall: &'s Hall,
    pub cause: Cause,
    /// By what machines of one status want different commands: the image that is deployed, or `full` erasing; else empty.
    pub detail: &'s str,
    pub machines: Vec<&'s Listed>,
    pub orders: Vec<Waiting<'s>>,
}

impl Group<'_> {
    /// How many machines and orders it has.
    pub fn size(&self) -> usize {
        self.machines.len().saturating_add(self.orders.len())
    }

    /// What is in trouble.
    pub fn title(&self) -> &'static str {
        match self.cause {
            Cause::Failed(status) => status.text(),
            Cause::Deadline => "Deadline passed",
            Cause::Orders => "Orders that wait for over five minutes",
        }
    }

    /// What to do.
    pub fn advice(&self, now: u64) -> &'static str {
        match self.cause {
            Cause::Failed(status) => advice(status),
            Cause::Deadline if self.hall.is_stale(now) =>
                "The list is older than that: the machine is done by now, or has failed. Look again once the desk answers.",
            Cause::Deadline =>
                "The desk should have failed it by now: are the desk's clock and this host's right? Look again.",
            Cause::Orders =>
                "Is the power program running? By hand, with a token of role power: look at the list directly before you act, since an order that isn't in it any more is void.",
        }
    }

    /// Whether its machines have one image, which failed.
    pub fn is_of_image(&self) -> bool {
        self.cause == Cause::Failed(Status::FailedDeployment) && !self.detail.is_empty()
    }

    /// The field of the table of machines that shows all of them, and what it asks for.
    pub fn field(&self) -> (Field, &'static str) {
        match self.cause {
            Cause::Failed(status) => (Field::Status, status.text()),
            Cause::Deadline | Cause::Orders => (Field::Sort, "deadline"),
        }
    }
}

fn detail_of(machine: &Machine) -> &str {
    match (machine.status, &machine.image, machine.erase) {
        (Status::FailedDeployment, Some(image), _) => image.text(),
        (Status::FailedDiskErasing, _, Some(Erase::Full)) => "full",
        _ => "",
    }
}

// The place of a cause among others.
fn rank(cause: Cause) -> u8 {
    match cause {
        Cause::Failed(status) => status.number(),
        Cause::Deadline => 100,
        Cause::Orders => 101,
    }
}

fn order_of(one: &Group<'_>, cause: Cause, detail: &str) -> Ordering {
    rank(one.cause)
        .cmp(&rank(cause))
        .then(one.detail.cmp(detail))
}

// Adds a machine to its group among those from a place on, which are of its hall and in their order.
fn add<'s>(
    alloc: Global,
    groups: &mut Vec<Group<'s>>,
    hall: &'s Hall,
    cause: Cause,
    one: &'s Listed,
) -> Result<(), AllocError> {
    let detail = match cause {
        Cause::Failed(_) => detail_of(&one.machine),
        Cause::Deadline | Cause::Orders => "",
    };
    match groups.binary_search_by(|group| order_of(group, cause, detail)) {
        Ok(place) => {
            if let Some(group) = groups.get_mut(place) {
                group.machines.push(one)?;
            }
        }
        Err(place) => {
            let group = Group {
                hall,
                cause,
                detail,
                machines: Vec::from_array(alloc, [one])?,
                orders: Vec::new(alloc),
            };
            groups.insert(place, group)?;
        }
    }
    Ok(())
}

// The orders that have waited for long, if there are any.
fn long_orders<'s>(
    alloc: Global,
    groups: &mut Vec<Group<'s>>,
    hall: &'s Hall,
    orders: &[Waiting<'s>],
) -> Result<(), AllocError> {
    let mut long = Vec::new(alloc);
    for order in orders {
        if order.waits > LONG_WAIT {
            long.push(*order)?;
        }
    }
    if !long.is_empty() {
        groups.push(Group {
            hall,
            cause: Cause::Orders,
            detail: "",
            machines: Vec::new(alloc),
            orders: long,
        })?;
    }
    Ok(())
}

/// Adds the groups of a hall, and says how many machines and orders they have.
pub fn groups_of<'s>(
    alloc: Global,
    groups: &mut Vec<Group<'s>>,
    hall: &'s Hall,
    orders: &[Waiting<'s>],
    now: u64,
) -> Result<usize, AllocError> {
    let mut own = Vec::new(alloc);
    for one in hall.machines() {
        let status = one.machine.status;
        if status.is_failure() {
            add(alloc, &mut own, hall, Cause::Failed(status), one)?;
        } else if StatusKind::of(status) == StatusKind::Work && is_passed(&one.machine, now) {
            add(alloc, &mut own, hall, Cause::Deadline, one)?;
        }
    }
    long_orders(alloc, &mut own, hall, orders)?;
    let mut count: usize = 0;
    for group in own {
        count = count.saturating_add(group.size());
        groups.push(group)?;
    }
    Ok(count)
}

//! What a page shows of halls, and what it counts in them.
use crate::hall::Hall;
use crate::kinds::{StatusKind, is_passed};
use crate::listed::Listed;
use crate::query::{Field, Query};
use crate::state::State;
use crate::trouble_groups::{Group, groups_of};
use crate::waiting::waiting_orders;
use std::alloc::{AllocError, Global};
use std::cmp::Ordering;

/// A machine that is at work, and its deadline.
#[derive(Clone, Copy)]
pub struct Work<'s> {
    pub deadline: u64,
    pub hall: &'s Hall,
    pub one: &'s Listed,
}

/// What there is of a hall.
#[derive(Clone, Copy)]
pub struct Total {
    pub machines: usize,
    pub trouble: usize,
    pub work: usize,
    pub orders: usize,
}

/// The order of two machines by the names of their halls, and in one hall by their numbers.
pub(crate) fn by_place(hall: &Hall, one: &Listed, other_hall: &Hall, other: &Listed) -> Ordering {
    hall.name
        .text()
        .cmp(other_hall.name.text())
        .then(one.machine.id.cmp(&other.machine.id))
}

fn by_deadline(one: &Work<'_>, other: &Work<'_>) -> Ordering {
    match one.deadline.cmp(&other.deadline) {
        Ordering::Equal => by_place(one.hall, one.one, other.hall, other.one),
        order => order,
    }
}

/// What a page shows.
#[derive(Drop)]
pub struct View<'s> {
    pub state: &'s State,
    /// Seconds since 1970.
    pub now: u64,
    pub query: Query,
    pub halls: Vec<&'s Hall>,
    pub groups: Vec<Group<'s>>,
    /// By deadline, the next one first.
    pub work: Vec<Work<'s>>,
    /// A total for each of the halls.
    pub totals: Vec<Total>,
    /// How many machines there are.
    pub machines: usize,
    /// How many machines and orders are in trouble.
    pub trouble: usize,
    /// How many halls are shown by a list that is old.
    pub stale: usize,
}

// The machines of a hall that are at work, and whose deadlines haven't passed.
fn push_work<'s>(work: &mut Vec<Work<'s>>, hall: &'s Hall, now: u64) -> Result<usize, AllocError> {
    let mut count: usize = 0;
    for one in hall.machines() {
        if StatusKind::of(one.machine.status) == StatusKind::Work && !is_passed(&one.machine, now) {
            let deadline = one.machine.deadline.unwrap_or(u64::MAX);
            work.push(Work {
                deadline,
                hall,
                one,
            })?;
            count = count.saturating_add(1);
        }
    }
    Ok(count)
}

impl<'s> View<'s> {
    /// What a query shows of a state.
    pub fn new(
        alloc: Global,
        state: &'s State,
        now: u64,
        query: Query,
    ) -> Result<View<'s>, AllocError> {
        let mut view = View {
            state,
            now,
            query,
            halls: Vec::new(alloc),
            groups: Vec::new(alloc),
            work: Vec::new(alloc),
            totals: Vec::new(alloc),
            machines: 0,
            trouble: 0,
            stale: 0,
        };
        view.fill(alloc)?;
        Ok(view)
    }

    fn fill(&mut self, alloc: Global) -> Result<(), AllocError> {
        let state = self.state;
        for hall in state.halls.as_slice() {
            if self.query.takes(Field::Hall, hall.name.text()) {
                self.add(alloc, hall)?;
            }
        }
        self.work.sort_by(by_deadline)?;
        Ok(())
    }

    fn add(&mut self, alloc: Global, hall: &'s Hall) -> Result<(), AllocError> {
        let orders = waiting_orders(alloc, hall)?;
        let trouble = groups_of(alloc, &mut self.groups, hall, orders.as_slice(), self.now)?;
        let work = push_work(&mut self.work, hall, self.now)?;
        let machines = hall.machines().len();
        self.machines = self.machines.saturating_add(machines);
        self.trouble = self.trouble.saturating_add(trouble);
        if hall.is_stale(self.now) {
            self.stale = self.stale.saturating_add(1);
        }
        self.halls.push(hall)?;
        self.totals.push(Total {
            machines,
            trouble,
            work,
            orders: orders.len(),
        })?;
        Ok(())
    }

    /// Whether machines of several halls are shown.
    pub fn has_several(&self) -> bool {
        self.halls.len() > 1
    }

    /// The name of a hall in links, empty where there is no other hall.
    pub fn hall_in_links<'h>(&self, hall: &'h Hall) -> &'h str {
        if self.state.halls.len() > 1 {
            hall.name.text()
        } else {
            ""
        }
    }
}

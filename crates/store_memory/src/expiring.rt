//! Which machine of a store in memory expires next.
ghost use Rattle.std.specs.{Prelude.{◌≡◌, ℕ, Some}, BTreeMap.IsOrdered, Ordering.nat_cmp};
ghost use Rattle.hall_types.specs.{Hall.Hall, declared.machine.Machine.Machine, Lookup.{is_before, is_due, next_expired, sooner, soonest}};
ghost use Rattle.store_memory.specs.{Expiry.joined, Held.IsHeld, Table.rows_of};

use crate::memory::MemoryStore;
use hall_types::{Machine, Moment};
use std::collections::BTreeMap;

fn is_before(deadline: Option<u64>, other: Option<u64>) -> bool
    ensures { result ≡ is_before deadline other }
{
    match (deadline, other) {
        (None, _) => false,
        (Some(_), None) => true,
        (Some(deadline), Some(other)) => deadline < other,
    }
}

fn sooner(best: Option<Machine>, machine: &Machine) -> Machine
    ensures { Some result ≡ joined best (Some machine.now) }
{
    match best {
        Some(best) => {
            if is_before(machine.deadline, best.deadline) {
                *machine
            } else {
                best
            }
        }
        None => *machine,
    }
}

// The first machine with the least deadline.
fn soonest(machines: &BTreeMap<u64, Option<Machine>>) -> Option<Machine>
    ensures soonest { result ≡ soonest (rows_of machines.now) }
    ensures ordered { IsOrdered nat_cmp machines.now }
{
    let mut best = None;
    'machines: for row in machines.values() {
        if let Some(machine) = row {
            best = Some(sooner(best, machine));
        }
    }
    best
}

impl MemoryStore {
    /// The next machine to expire. It is looked for only if no deadline is known to be later than the moment, and
    /// the least deadline that is found is known from then on.
    pub(crate) fn next_due(&mut self, moment: Moment) -> Option<Machine>
        ensures answer { (h : Hall) → IsHeld self.old h → result ≡ next_expired h moment }
        ensures same { (h : Hall) → IsHeld self.old h → IsHeld self.new h }
    {
        if moment.get() < self.earliest {
            return None;
        }
        match soonest(&self.machines) {
            Some(first) => {
                self.earliest = first.deadline.unwrap_or(u64::MAX);
                first.if_due(moment)
            }
            None => {
                self.earliest = u64::MAX;
                None
            }
        }
    }
}

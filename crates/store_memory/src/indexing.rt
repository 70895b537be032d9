//! What is kept beside the tables of a store in memory.
ghost use Rattle.std.specs.{Prelude.{◌≡◌, ◌<◌, ◌≤◌, ◌+◌, ◌-◌, ◌^◌, ℕ, List, Some, None, is_some}, Str.bytes_eq};
ghost use Rattle.hall_types.specs.Rows.{one_if};
ghost use Rattle.store_memory.specs.{Hashed.{HasEntry, KeepsEntries}, Held.{SetsEntry, uuid_of}};

use crate::hashed;
use hall_types::{Machine, MachineUuid, Number};
use std::collections::HashMap;

/// The UUID of a machine, if there is a machine and it has one.
pub(crate) fn uuid_of(machine: &Option<Machine>) -> Option<MachineUuid>
    ensures { result ≡ uuid_of machine.now }
{
    machine.as_ref()?.uuid
}

/// Takes the entry of a UUID out.
pub(crate) fn clear_entry(index: &mut HashMap<[u8; 16], Option<Number>>, uuid: Option<MachineUuid>)
    ensures sets { SetsEntry index.old index.new uuid None }
    ensures slots { KeepsEntries bytes_eq index.old index.new }
{
    if let Some(uuid) = uuid {
        hashed::clear(index, uuid.octets());
    }
}

/// Sets the entry of a UUID to a number.
pub(crate) fn set_entry(
    index: &mut HashMap<[u8; 16], Option<Number>>,
    uuid: Option<MachineUuid>,
    id: Number,
)
    requires { (its : List ℕ) → uuid ≡ Some its → HasEntry bytes_eq index.old its }
    ensures sets { SetsEntry index.old index.new uuid (Some id) }
    ensures slots { KeepsEntries bytes_eq index.old index.new }
{
    if let Some(uuid) = uuid {
        hashed::set(index, uuid.octets(), Some(id));
    }
}

/// How many machines there are after one was put, in place of the one that was there before.
pub(crate) fn count_after_put(count: u64, was: &Option<Machine>) -> u64
    ensures { count < 2 ^ 63 → result + one_if (is_some was.now) ≡ count + 1 }
{
    match was {
        Some(_) => count,
        None => count.saturating_add(1),
    }
}

/// How many machines there are after one went.
pub(crate) fn count_after_gone(count: u64, was: &Option<Machine>) -> u64
    ensures { result ≡ count - one_if (is_some was.now) }
{
    match was {
        Some(_) => count.saturating_sub(1),
        None => count,
    }
}

/// A deadline that none is before, after one was added.
pub(crate) fn earliest_after_put(earliest: u64, deadline: Option<u64>) -> u64
    ensures before { result ≤ earliest }
    ensures own { (its : ℕ) → deadline ≡ Some its → result ≤ its }
{
    match deadline {
        Some(deadline) => earliest.min(deadline),
        None => earliest,
    }
}

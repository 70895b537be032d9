//! How many machines each pool has in each status.
ghost use Rattle.std.specs.{Prelude.{◌≡◌, ◌<◌, ◌^◌, [], ◌∷◌, All, Some, IfOk, OnOk, OnErr, List, ℕ}, BTreeMap.{IsOrdered, IsUnchanged, Updates, get, values}, Ordering.nat_cmp};
ghost use Rattle.hall_types.specs.{Hall.Hall, Status.status_number, declared.status.Status.Status};
ghost use Rattle.hall_store.specs.Counts.{AreCounts};
ghost use Rattle.store_memory.specs.{Counted.{AreEntries, CountsMore, counted_in, key_cmp, machines_in, many}, Held.IsHeld, Table.rows_of};

use crate::memory::MemoryStore;
use hall_store::Count;
use hall_types::{Machine, Name};
use std::alloc::{AllocError, Global};
use std::collections::BTreeMap;

fn count_at(counts: &BTreeMap<(Name, u8), Count>, key: &(Name, u8)) -> u64
    ensures { result ≡ machines_in (get key_cmp counts.now key.now) }
{
    match counts.get(key) {
        Some(count) => count.machines,
        None => 0,
    }
}

fn put_count(counts: &mut BTreeMap<(Name, u8), Count>, count: Count) -> Result<(), AllocError>
    ensures put { OnOk result (Updates key_cmp counts.old counts.new (count.pool, status_number count.status) (Some count)) }
    ensures same { OnErr result (IsUnchanged counts.old counts.new) }
{
    match counts.insert((count.pool, count.status.number()), count) {
        Ok(_) => Ok(()),
        Err(_) => Err(AllocError),
    }
}

// Counts one more machine.
fn count_one(counts: &mut BTreeMap<(Name, u8), Count>, machine: &Machine) -> Result<(), AllocError>
    requires few { (pool : List ℕ) (status : Status) → counted_in counts.old pool status < 2 ^ 63 }
    requires are_entries { AreEntries counts.old }
    ensures entries { OnOk result (AreEntries counts.new) }
    ensures more { OnOk result (CountsMore counts.old counts.new (machine.now ∷ [])) }
{
    let machines = count_at(counts, &(machine.pool, machine.status.number())).saturating_add(1);
    put_count(
        counts,
        Count {
            pool: machine.pool,
            status: machine.status,
            machines,
        },
    )
}

// Counts all machines.
fn count_all(
    alloc: Global,
    machines: &BTreeMap<u64, Option<Machine>>,
) -> Result<BTreeMap<(Name, u8), Count>, AllocError>
    ensures entries { IfOk result AreEntries }
    ensures exact { IfOk result (λ counts. (pool : List ℕ) (status : Status) → counted_in counts pool status ≡ many pool status (rows_of machines.now)) }
    ensures ordered { IsOrdered nat_cmp machines.now }
{
    let mut counts = BTreeMap::new(alloc);
    'machines: for row in machines.values() {
        if let Some(machine) = row {
            count_one(&mut counts, machine)?;
        }
    }
    Ok(counts)
}

fn listed(alloc: Global, counts: &BTreeMap<(Name, u8), Count>) -> Result<Vec<Count>, AllocError>
    ensures listed { IfOk result (λ list. list.items ≡ values counts.now) }
    ensures ordered { IsOrdered key_cmp counts.now }
    ensures found { All (λ e. get key_cmp counts.now e.0 ≡ Some e.1) counts.now.entries }
{
    counts.iter().map(|(_, count)| *count).collect(alloc)
}

impl MemoryStore {
    pub(crate) fn machine_counts(&self, alloc: Global) -> Result<Vec<Count>, AllocError>
        ensures { IfOk result (λ counts. (h : Hall) → IsHeld self.now h → AreCounts h counts.items) }
    {
        let counts = count_all(alloc, &self.machines)?;
        listed(alloc, &counts)
    }
}

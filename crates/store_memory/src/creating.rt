//! A new hall in memory.
ghost use Rattle.std.specs.{Prelude.{◌≡◌, Some, None, IfOk, if◌then◌else◌}, Ordering.eq_by_cmp};
ghost use Rattle.hall_types.specs.Hall.{default_pool, new_hall, second};
ghost use Rattle.store_memory.specs.{Held.IsHeld, Table.HasSole};

use crate::memory::MemoryStore;
use crate::table;
use hall_types::{
    Digest, LastIssued, Name, Numbers, Operator, Pool, Role, rows_stand_under_their_keys,
};
use std::alloc::{AllocError, Global};
use std::collections::{BTreeMap, HashMap};

// A table with one row.
fn sole<K: Ord + Copy + Drop, X: Drop>(
    alloc: Global,
    key: K,
    row: X,
) -> Result<BTreeMap<K, Option<X>>, AllocError>
    ensures { IfOk result (λ table. HasSole K.cmp table key row) }
{
    let mut rows = BTreeMap::new(alloc);
    table::reserve(&mut rows, key)?;
    table::set(&mut rows, key, Some(row));
    Ok(rows)
}

#[tactic(auto, unfolding(hall_types::specs::Name::is_name))]
fn default_pool() -> Name
    ensures { result ≡ default_pool }
{
    match Name::new("default") {
        Ok(name) => name,
        Err(_) => unreachable!(),
    }
}

impl MemoryStore {
    pub(crate) fn with_admin(
        alloc: Global,
        admin: Name,
        digest: Digest,
    ) -> Result<MemoryStore, AllocError>
        ensures { IfOk result (λ store. IsHeld store (new_hall second admin digest)) }
    {
        rows_stand_under_their_keys();
        let operator = Operator {
            name: admin,
            role: Role::Admin,
            digest,
            enabled: true,
        };
        let operators = sole(alloc, admin, operator)?;
        let name = default_pool();
        let pools = sole(alloc, name, Pool { name })?;
        Ok(MemoryStore {
            alloc,
            operators,
            pools,
            members: BTreeMap::new(alloc),
            images: BTreeMap::new(alloc),
            lives: BTreeMap::new(alloc),
            machines: BTreeMap::new(alloc),
            interfaces: BTreeMap::new(alloc),
            boots: BTreeMap::new(alloc),
            orders: BTreeMap::new(alloc),
            receipts: BTreeMap::new(alloc),
            numbers: Numbers {
                machine: LastIssued::NONE,
                boot: LastIssued::NONE,
                order: LastIssued::NONE,
            },
            addresses: HashMap::new(alloc),
            uuids: HashMap::new(alloc),
            machine_count: 0,
            earliest: u64::MAX,
        })
    }
}

//! Tables in memory that are found by a hash of their keys. A slot without a row is taken for a row to come, as in
//! the tables in order.
ghost use Rattle.std.specs.Prelude.{◌≡◌, ◌==◌, true, OnOk};
ghost use Rattle.store_memory.specs.{Hashed.{ClearsEntries, HasEntry, KeepsEntries, KeepsFound, SetsEntryAt, entry_at}, Table.unless_gone};

use crate::table::{OfMachine, clear_row};
use hall_types::Number;
use std::alloc::AllocError;
use std::collections::HashMap;
use std::hash::Hash;

/// The row with a key.
pub(crate) fn row<K: Eq + Hash, X: Copy>(table: &HashMap<K, Option<X>>, key: &K) -> Option<X>
    ensures { result ≡ entry_at K.eq table.now key.now }
{
    *table.get(key)?
}

/// Takes a slot for a row with a key.
pub(crate) fn reserve<K: Eq + Hash + Drop, X: Drop>(
    table: &mut HashMap<K, Option<X>>,
    key: K,
) -> Result<(), AllocError>
    ensures slot { OnOk result (HasEntry K.eq table.new key) }
    ensures slots { KeepsEntries K.eq table.old table.new }
    ensures rows { KeepsFound K.eq table.old table.new }
{
    if table.contains_key(&key) {
        return Ok(());
    }
    match table.insert(key, None) {
        Ok(_) => Ok(()),
        Err(_) => Err(AllocError),
    }
}

/// Puts a row in its slot, or takes it out.
pub(crate) fn set<K: Eq + Hash + Drop, X: Drop>(
    table: &mut HashMap<K, Option<X>>,
    key: K,
    row: Option<X>,
)
    requires { HasEntry K.eq table.old key }
    ensures sets { SetsEntryAt K.eq table.old table.new key row }
    ensures slots { KeepsEntries K.eq table.old table.new }
{
    match table.insert(key, row) {
        Ok(_) => {}
        Err(_) => unreachable!(),
    }
}

/// Takes the row with a key out, if there is one.
pub(crate) fn clear<K: Eq + Hash + Drop, X: Drop>(table: &mut HashMap<K, Option<X>>, key: K)
    ensures sets { SetsEntryAt K.eq table.old table.new key None }
    ensures slots { KeepsEntries K.eq table.old table.new }
{
    if table.contains_key(&key) {
        set(table, key, None);
    }
}

/// Takes a machine's rows out.
pub(crate) fn clear_machine<K: Eq + Hash + Drop, X: OfMachine + Copy>(
    table: &mut HashMap<K, Option<X>>,
    machine: Number,
)
    ensures clears { ClearsEntries K.eq table.old table.new (λ x. X.owner x == machine) }
    ensures slots { KeepsEntries K.eq table.old table.new }
{
    table.retain(
        |_, row| -> bool
            ensures kept { result ≡ true }
            ensures cleared { row.new ≡ unless_gone (λ x. X.owner x == machine) row.old }
        {
            clear_row(row, machine);
            true
        },
    );
}

//! Tables in memory. A slot without a row is taken for a row to come, so that rows are written without memory.
ghost use Rattle.std.specs.{Prelude.{◌≡◌, ◌<◌, ◌^◌, ◌==◌, ℕ, true, OnOk, IfOk}, BTreeMap.{IsOrdered, btree_map_len}, Option.option_copied};
ghost use Rattle.store_memory.specs.Table.{Clears, HasSlot, KeepsSlots, KeepsRows, Sets, row_at, rows_of, unless_gone};

use hall_types::{Boot, Interface, Number, Order};
use std::alloc::{AllocError, Global};
use std::collections::BTreeMap;

/// The row with a key.
pub(crate) fn row<K: Ord, X: Copy>(table: &BTreeMap<K, Option<X>>, key: &K) -> Option<X>
    ensures { result ≡ row_at K.cmp table.now key.now }
{
    *table.get(key)?
}

/// The row with a key, where it is.
pub(crate) fn row_ref<'a, K: Ord, X>(table: &'a BTreeMap<K, Option<X>>, key: &K) -> Option<&'a X>
    ensures { option_copied result ≡ row_at K.cmp table.now key.now }
{
    match table.get(key) {
        Some(Some(row)) => Some(row),
        _ => None,
    }
}

/// Takes a slot for a row with a key.
pub(crate) fn reserve<K: Ord + Drop, X: Drop>(
    table: &mut BTreeMap<K, Option<X>>,
    key: K,
) -> Result<(), AllocError>
    ensures slot { OnOk result (HasSlot K.cmp table.new key) }
    ensures slots { KeepsSlots K.cmp table.old table.new }
    ensures rows { KeepsRows K.cmp table.old table.new }
{
    if table.contains_key(&key) {
        return Ok(());
    }
    match table.insert(key, None) {
        Ok(_) => Ok(()),
        Err(_) => Err(AllocError),
    }
}

/// Puts a row in its slot, or takes it out.
pub(crate) fn set<K: Ord + Drop, X: Drop>(
    table: &mut BTreeMap<K, Option<X>>,
    key: K,
    row: Option<X>,
)
    requires { HasSlot K.cmp table.old key }
    ensures sets { Sets K.cmp table.old table.new key row }
    ensures slots { KeepsSlots K.cmp table.old table.new }
{
    match table.insert(key, row) {
        Ok(_) => {}
        Err(_) => unreachable!(),
    }
}

/// Takes the row with a key out, if there is one.
pub(crate) fn clear<K: Ord + Drop, X: Drop>(table: &mut BTreeMap<K, Option<X>>, key: K)
    ensures sets { Sets K.cmp table.old table.new key None }
    ensures slots { KeepsSlots K.cmp table.old table.new }
{
    if table.contains_key(&key) {
        set(table, key, None);
    }
}

/// A table has fewer than 2^63 slots, in the order of their keys.
pub(crate) fn table_is_bounded<K: Ord, X>(table: &BTreeMap<K, Option<X>>)
    ensures small { btree_map_len table.now < 2 ^ 63 }
    ensures ordered { IsOrdered K.cmp table.now }
{
    table.len();
}

/// All rows, in the order of their keys.
pub(crate) fn rows<K: Ord, X: Copy>(
    alloc: Global,
    table: &BTreeMap<K, Option<X>>,
) -> Result<Vec<X>, AllocError>
    ensures rows { IfOk result (λ rows. rows.items ≡ rows_of table.now) }
    ensures ordered { IsOrdered K.cmp table.now }
{
    table.values().filter_map(|row| *row).collect(alloc)
}

/// A row that belongs to a machine.
pub(crate) trait OfMachine {
    ghost owner: { Self → ℕ };

    fn owner(&self) -> Number
        ensures { result ≡ owner self.now };
}

impl OfMachine for Interface {
    ghost owner = { λ interface. interface.machine };

    fn owner(&self) -> Number {
        self.machine
    }
}

impl OfMachine for Boot {
    ghost owner = { λ boot. boot.machine };

    fn owner(&self) -> Number {
        self.machine
    }
}

impl OfMachine for Order {
    ghost owner = { λ order. order.machine };

    fn owner(&self) -> Number {
        self.machine
    }
}

pub(crate) fn clear_row<X: OfMachine + Copy>(row: &mut Option<X>, machine: Number)
    ensures { row.new ≡ unless_gone (λ x. X.owner x == machine) row.old }
{
    if let Some(its) = *row {
        if its.owner() == machine {
            *row = None;
        }
    }
}

/// Takes a machine's rows out.
pub(crate) fn clear_machine<K: Ord + Drop, X: OfMachine + Copy>(
    table: &mut BTreeMap<K, Option<X>>,
    machine: Number,
)
    ensures clears { Clears K.cmp table.old table.new (λ x. X.owner x == machine) }
    ensures slots { KeepsSlots K.cmp table.old table.new }
{
    table.retain(
        |_, row| -> bool
            ensures kept { result ≡ true }
            ensures cleared { row.new ≡ unless_gone (λ x. X.owner x == machine) row.old }
        {
            clear_row(row, machine);
            true
        },
    );
}

//! Lists of rows, and rows found by what is not their key.
ghost use Rattle.std.specs.{Prelude.{◌≡◌, ◌==◌, filter, find, IfOk}, BTreeMap.IsOrdered, Ordering.nat_cmp, List.list_any, Str.bytes_eq};
ghost use Rattle.hall_types.specs.{Hall.Hall, Lookup.{interfaces_of, is_image_used, is_named, operator_with_digest, waiting, waits}, Rows.listed};
ghost use Rattle.store_memory.specs.{Held.{IsHeld, text_cmp}, Table.rows_of};

use crate::memory::MemoryStore;
use crate::table;
use hall_types::{
    Digest, Image, Interface, Live, Machine, Name, Number, Operator, Order, OrderStage,
};
use std::alloc::{AllocError, Global};
use std::collections::BTreeMap;

fn operator_in(operators: &BTreeMap<Name, Option<Operator>>, digest: &Digest) -> Option<Operator>
    ensures found { result ≡ find (λ o. bytes_eq o.digest digest.now) (rows_of operators.now) }
    ensures ordered { IsOrdered text_cmp operators.now }
{
    operators
        .values()
        .filter_map(|row| *row)
        .find(|operator| operator.digest == *digest)
}

fn is_live_in(lives: &BTreeMap<u8, Option<Live>>, name: &Name) -> bool
    ensures found { result ≡ list_any (λ l. bytes_eq l.image name.now) (rows_of lives.now) }
    ensures ordered { IsOrdered nat_cmp lives.now }
{
    lives
        .values()
        .filter_map(|row| *row)
        .any(|live| live.image == *name)
}

fn is_named(given: Option<Name>, name: &Name) -> bool
    ensures { result ≡ is_named given name.now }
{
    match given {
        Some(given) => given == *name,
        None => false,
    }
}

fn is_image_in(machines: &BTreeMap<u64, Option<Machine>>, name: &Name) -> bool
    ensures found { result ≡ list_any (λ m. is_named m.image name.now) (rows_of machines.now) }
    ensures ordered { IsOrdered nat_cmp machines.now }
{
    machines
        .values()
        .filter_map(|row| *row)
        .any(|machine| is_named(machine.image, name))
}

fn interfaces_in(
    alloc: Global,
    interfaces: &BTreeMap<[u8; 6], Option<Interface>>,
    id: Number,
) -> Result<Vec<Interface>, AllocError>
    ensures rows { IfOk result (λ rows. rows.items ≡ filter (λ i. i.machine == id) (rows_of interfaces.now)) }
    ensures ordered { IsOrdered text_cmp interfaces.now }
{
    interfaces
        .values()
        .filter_map(|row| *row)
        .filter(|interface| interface.machine == id)
        .collect(alloc)
}

fn waits(stage: OrderStage) -> bool
    ensures { result ≡ waits stage }
{
    match stage {
        OrderStage::Waiting => true,
        OrderStage::Done | OrderStage::Failed | OrderStage::Withdrawn => false,
    }
}

fn waiting_in(
    alloc: Global,
    orders: &BTreeMap<u64, Option<Order>>,
) -> Result<Vec<Order>, AllocError>
    ensures rows { IfOk result (λ rows. rows.items ≡ filter (λ o. waits o.stage) (rows_of orders.now)) }
    ensures ordered { IsOrdered nat_cmp orders.now }
{
    let mut waiting = Vec::new(alloc);
    'orders: for row in orders.values() {
        if let Some(order) = row {
            if waits(order.stage) {
                waiting.push(*order)?;
            }
        }
    }
    Ok(waiting)
}

impl MemoryStore {
    pub(crate) fn operator_with(&self, digest: &Digest) -> Option<Operator>
        ensures { (h : Hall) → IsHeld self.now h → result ≡ operator_with_digest h digest.now }
    {
        operator_in(&self.operators, digest)
    }

    pub(crate) fn is_image_used(&self, name: &Name) -> bool
        ensures { (h : Hall) → IsHeld self.now h → result ≡ is_image_used h name.now }
    {
        let live = is_live_in(&self.lives, name);
        let deployed = is_image_in(&self.machines, name);
        live || deployed
    }

    pub(crate) fn interfaces_of_machine(
        &self,
        alloc: Global,
        id: Number,
    ) -> Result<Vec<Interface>, AllocError>
        ensures { IfOk result (λ rows. (h : Hall) → IsHeld self.now h → rows.items ≡ interfaces_of h id) }
    {
        interfaces_in(alloc, &self.interfaces, id)
    }

    pub(crate) fn all_interfaces(&self, alloc: Global) -> Result<Vec<Interface>, AllocError>
        ensures { IfOk result (λ rows. (h : Hall) → IsHeld self.now h → rows.items ≡ listed h.interfaces) }
    {
        table::rows(alloc, &self.interfaces)
    }

    pub(crate) fn all_machines(&self, alloc: Global) -> Result<Vec<Machine>, AllocError>
        ensures { IfOk result (λ rows. (h : Hall) → IsHeld self.now h → rows.items ≡ listed h.machines) }
    {
        table::rows(alloc, &self.machines)
    }

    pub(crate) fn orders_that_wait(&self, alloc: Global) -> Result<Vec<Order>, AllocError>
        ensures { IfOk result (λ rows. (h : Hall) → IsHeld self.now h → rows.items ≡ waiting h) }
    {
        waiting_in(alloc, &self.orders)
    }
}

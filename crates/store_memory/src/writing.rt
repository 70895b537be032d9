//! Rows written where slots for them are taken.
ghost use Rattle.std.specs.Prelude.{◌≡◌, ℕ, List, Some, None, OnOk, OnErr};
ghost use Rattle.hall_types.specs.{Hall.{Hall, applied, written}, declared.change.RowWrite.{RowWrite, TheVariants.{InterfaceGone, MachineGone, PutInterface, PutMachine}}};
ghost use Rattle.hall_store.specs.Rules.{AllKeep, Keeps, KeepsMachines};
ghost use Rattle.store_memory.specs.Held.{HasSlots, HaveAllSlots, IsHeld, KeepsAllSlots};

use crate::indexing::{
    clear_entry, count_after_gone, count_after_put, earliest_after_put, set_entry, uuid_of,
};
use crate::memory::MemoryStore;
use crate::{hashed, table};
use hall_store::copies;
use hall_types::{
    Interface, MacAddress, Machine, Number, RowWrite, arch_number, rows_stand_under_their_keys,
};
use std::alloc::AllocError;

impl MemoryStore {
    fn reserve_machine(&mut self, machine: &Machine) -> Result<(), AllocError>
        ensures slots { OnOk result (HasSlots (PutMachine machine.now None) self.new) }
        ensures others { KeepsAllSlots self.old self.new }
        ensures same { (h : Hall) → IsHeld self.old h → IsHeld self.new h }
    {
        table::reserve(&mut self.machines, machine.id.get())?;
        match machine.uuid {
            Some(uuid) => hashed::reserve(&mut self.uuids, uuid.octets()),
            None => Ok(()),
        }
    }

    fn reserve_interface(&mut self, interface: &Interface) -> Result<(), AllocError>
        ensures slots { OnOk result (HasSlots (PutInterface interface.now) self.new) }
        ensures others { KeepsAllSlots self.old self.new }
        ensures same { (h : Hall) → IsHeld self.old h → IsHeld self.new h }
    {
        let mac = interface.mac.octets();
        table::reserve(&mut self.interfaces, mac)?;
        hashed::reserve(&mut self.addresses, mac)
    }

    // Takes the slots for what a row write puts.
    fn reserve(&mut self, write: &RowWrite) -> Result<(), AllocError>
        ensures slots { OnOk result (HasSlots write.now self.new) }
        ensures others { KeepsAllSlots self.old self.new }
        ensures same { (h : Hall) → IsHeld self.old h → IsHeld self.new h }
    {
        match write {
            RowWrite::PutOperator(operator) => table::reserve(&mut self.operators, operator.name),
            RowWrite::PutPool(pool) => table::reserve(&mut self.pools, pool.name),
            RowWrite::PutMember(member) => {
                table::reserve(&mut self.members, (member.pool, member.operator))
            }
            RowWrite::PutImage(image) => table::reserve(&mut self.images, image.name()),
            RowWrite::PutLive(live) => table::reserve(&mut self.lives, arch_number(live.arch)),
            RowWrite::PutMachine { machine, .. } => self.reserve_machine(machine),
            RowWrite::PutInterface(interface) => self.reserve_interface(interface),
            RowWrite::PutBoot(boot) => table::reserve(&mut self.boots, boot.number.get()),
            RowWrite::PutOrder(order) => table::reserve(&mut self.orders, order.number.get()),
            RowWrite::PutReceipt(receipt) => {
                table::reserve(&mut self.receipts, (receipt.operator, receipt.key.octets()))
            }
            RowWrite::ImageGone(_)
            | RowWrite::MachineGone(_)
            | RowWrite::InterfaceGone(_)
            | RowWrite::PutNumbers(_) => Ok(()),
        }
    }

    // Takes the slots for what row writes put.
    fn reserve_all(&mut self, writes: &[RowWrite]) -> Result<(), AllocError>
        ensures slots { OnOk result (HaveAllSlots writes.now self.new) }
        ensures same { (h : Hall) → IsHeld self.old h → IsHeld self.new h }
    {
        'writes: for write in writes {
            self.reserve(write)?;
        }
        Ok(())
    }

    fn put_machine(&mut self, machine: &Machine)
        requires { HasSlots (PutMachine machine.now None) self.old }
        ensures held { (h : Hall) → IsHeld self.old h → KeepsMachines machine.now h → IsHeld self.new (written (PutMachine machine.now None) h) }
        ensures slots { KeepsAllSlots self.old self.new }
    {
        rows_stand_under_their_keys();
        table::table_is_bounded(&self.machines);
        let was = self.machine_row(machine.id);
        clear_entry(&mut self.uuids, uuid_of(&was));
        set_entry(&mut self.uuids, machine.uuid, machine.id);
        self.machine_count = count_after_put(self.machine_count, &was);
        self.earliest = earliest_after_put(self.earliest, machine.deadline);
        table::set(&mut self.machines, machine.id.get(), Some(*machine));
    }

    fn clear_machine(&mut self, id: Number)
        ensures held { (h : Hall) → IsHeld self.old h → IsHeld self.new (written (MachineGone id) h) }
        ensures slots { KeepsAllSlots self.old self.new }
    {
        rows_stand_under_their_keys();
        let was = self.machine_row(id);
        clear_entry(&mut self.uuids, uuid_of(&was));
        self.machine_count = count_after_gone(self.machine_count, &was);
        table::clear(&mut self.machines, id.get());
        hashed::clear_machine(&mut self.addresses, id);
        table::clear_machine(&mut self.interfaces, id);
        table::clear_machine(&mut self.boots, id);
        table::clear_machine(&mut self.orders, id);
    }

    fn put_interface(&mut self, interface: &Interface)
        requires { HasSlots (PutInterface interface.now) self.old }
        ensures held { (h : Hall) → IsHeld self.old h → IsHeld self.new (written (PutInterface interface.now) h) }
        ensures slots { KeepsAllSlots self.old self.new }
    {
        rows_stand_under_their_keys();
        let mac = interface.mac.octets();
        hashed::set(&mut self.addresses, mac, Some(*interface));
        table::set(&mut self.interfaces, mac, Some(*interface));
    }

    fn clear_interface(&mut self, mac: MacAddress)
        ensures held { (h : Hall) → IsHeld self.old h → IsHeld self.new (written (InterfaceGone mac) h) }
        ensures slots { KeepsAllSlots self.old self.new }
    {
        rows_stand_under_their_keys();
        let mac = mac.octets();
        hashed::clear(&mut self.addresses, mac);
        table::clear(&mut self.interfaces, mac);
    }

    // Writes a row in its slot.
    fn write(&mut self, write: RowWrite)
        requires { HasSlots write self.old }
        ensures held { (h : Hall) → IsHeld self.old h → Keeps write h → IsHeld self.new (written write h) }
        ensures slots { KeepsAllSlots self.old self.new }
    {
        rows_stand_under_their_keys();
        match write {
            RowWrite::PutOperator(operator) => {
                table::set(&mut self.operators, operator.name, Some(operator));
            }
            RowWrite::PutPool(pool) => table::set(&mut self.pools, pool.name, Some(pool)),
            RowWrite::PutMember(member) => {
                table::set(
                    &mut self.members,
                    (member.pool, member.operator),
                    Some(member),
                );
            }
            RowWrite::PutImage(image) => table::set(&mut self.images, image.name(), Some(image)),
            RowWrite::ImageGone(name) => table::clear(&mut self.images, name),
            RowWrite::PutLive(live) => {
                table::set(&mut self.lives, arch_number(live.arch), Some(live));
            }
            RowWrite::PutMachine { machine, .. } => self.put_machine(&machine),
            RowWrite::MachineGone(id) => self.clear_machine(id),
            RowWrite::PutInterface(interface) => self.put_interface(&interface),
            RowWrite::InterfaceGone(mac) => self.clear_interface(mac),
            RowWrite::PutBoot(boot) => table::set(&mut self.boots, boot.number.get(), Some(boot)),
            RowWrite::PutOrder(order) => {
                table::set(&mut self.orders, order.number.get(), Some(order));
            }
            RowWrite::PutReceipt(receipt) => table::set(
                &mut self.receipts,
                (receipt.operator, receipt.key.octets()),
                Some(receipt),
            ),
            RowWrite::PutNumbers(numbers) => self.numbers = numbers,
        }
    }

    // Writes the rows in their slots.
    fn write_all(&mut self, writes: Vec<RowWrite>)
        requires { HaveAllSlots writes.items self.old }
        ensures { (h : Hall) → IsHeld self.old h → AllKeep writes.items h → IsHeld self.new (applied writes.items h) }
    {
        'writes: for write in writes {
            self.write(write);
        }
    }

    /// Writes all rows of a change, or none where memory is refused or a machine's row has another version.
    pub(crate) fn apply_all(&mut self, writes: &[RowWrite]) -> Result<(), AllocError>
        ensures made { OnOk result ((h : Hall) → IsHeld self.old h → AllKeep writes.now h → IsHeld self.new (applied writes.now h)) }
        ensures same { OnErr result ((h : Hall) → IsHeld self.old h → IsHeld self.new h) }
    {
        let copies = copies(self.alloc, writes)?;
        self.reserve_all(&copies)?;
        self.write_all(copies);
        Ok(())
    }
}

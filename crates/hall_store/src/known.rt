//! Addresses that are known.
ghost use Rattle.std.specs.Prelude.{◌≡◌, Some, IfOk, IfSome};
ghost use Rattle.hall_types.specs.Hall.{Hall, applied};
ghost use Rattle.hall_store.specs.Known.{AreOf, changes_interfaces, machine_at};

use hall_types::{Change, Interface, MacAddress, Number, RowWrite};
use std::alloc::{AllocError, Global};

/// How many addresses are kept at most.
const SLOTS: usize = 16_384;

/// The machines of addresses. Two addresses whose last two octets give the same slot take each other's place.
#[derive(Drop)]
pub(crate) struct Known {
    slots: Vec<Option<Interface>>,
}

fn slot_of(mac: MacAddress) -> usize {
    let [_, _, _, _, high, low] = mac.octets();
    usize::from(u16::from_be_bytes([high, low])) % SLOTS
}

impl Known {
    /// No address is known.
    pub(crate) fn new(alloc: Global) -> Result<Known, AllocError>
        ensures { IfOk result (λ known. (h : Hall) → AreOf h known.slots.items) }
    {
        Ok(Known {
            slots: Vec::from_elem(alloc, None, SLOTS)?,
        })
    }

    /// The machine of an address, if it's known.
    pub(crate) fn find(&self, mac: MacAddress) -> Option<Number>
        ensures { (h : Hall) → AreOf h self.now.slots.items → IfSome result (λ machine. machine_at h mac ≡ Some machine) }
    {
        match self.slots.as_slice().get(slot_of(mac)) {
            Some(Some(known)) if known.mac == mac => Some(known.machine),
            _ => None,
        }
    }

    /// Keeps the machine of an address.
    pub(crate) fn keep(&mut self, mac: MacAddress, machine: Number)
        ensures { (h : Hall) → machine_at h mac ≡ Some machine → AreOf h self.old.slots.items → AreOf h self.new.slots.items }
    {
        let slot = slot_of(mac);
        if slot < self.slots.len() {
            self.slots[slot] = Some(Interface { mac, machine });
        }
    }

    fn clear(&mut self)
        ensures { (h : Hall) → AreOf h self.new.slots.items }
    {
        self.slots.as_mut_slice().fill(None);
    }

    /// Forgets what a change may make wrong.
    pub(crate) fn follow(&mut self, change: &Change)
        ensures after { (h : Hall) → AreOf h self.old.slots.items → AreOf (applied change.now h) self.new.slots.items }
        ensures refused { (h : Hall) → AreOf h self.old.slots.items → AreOf h self.new.slots.items }
    {
        if changes_interfaces(change) {
            self.clear();
        }
    }
}

// Whether a change may record an address with another machine.
fn changes_interfaces(change: &Change) -> bool
    ensures { result ≡ changes_interfaces change.now }
{
    change.writes().iter().any(|row| match row {
        RowWrite::PutInterface(_) | RowWrite::InterfaceGone(_) | RowWrite::MachineGone(_) => true,
        _ => false,
    })
}

//! What a store in memory answers.
ghost use Rattle.std.specs.Prelude.{◌≡◌, filter, IfOk, option_map};
ghost use Rattle.hall_types.specs.{Hall.{Hall, pair}, Lookup.{interfaces_of, is_image_used, machine_with_uuid, operator_with_digest, waiting}, Rows.{at, listed}};
ghost use Rattle.store_memory.specs.Held.{IsHeld};

use crate::memory::MemoryStore;
use crate::{hashed, table};
use hall_types::{
    Image, MacAddress, Machine, MachineUuid, Member, Name, Number, Receipt, RequestKey,
};
use std::alloc::{AllocError, Global};

impl MemoryStore {
    pub(crate) fn machine_at_mac(&self, mac: MacAddress) -> Option<Number>
        ensures { (h : Hall) → IsHeld self.now h → result ≡ option_map (λ i. i.machine) (at h.interfaces mac) }
    {
        hashed::row(&self.addresses, &mac.octets()).map(|interface| interface.machine)
    }

    pub(crate) fn machine_at_uuid(&self, uuid: MachineUuid) -> Option<Number>
        ensures { (h : Hall) → IsHeld self.now h → result ≡ option_map (λ m. m.id) (machine_with_uuid h uuid) }
    {
        hashed::row(&self.uuids, &uuid.octets())
    }

    pub(crate) fn machine_row(&self, id: Number) -> Option<Machine>
        ensures { (h : Hall) → IsHeld self.now h → result ≡ at h.machines id }
    {
        table::row(&self.machines, &id.get())
    }

    pub(crate) fn member_row(&self, pool: &Name, operator: &Name) -> Option<Member>
        ensures { (h : Hall) → IsHeld self.now h → result ≡ at h.members (pair pool.now operator.now) }
    {
        table::row(&self.members, &(*pool, *operator))
    }

    pub(crate) fn image_row(&self, alloc: Global, name: &Name) -> Result<Option<Image>, AllocError>
        ensures { IfOk result (λ image. (h : Hall) → IsHeld self.now h → image ≡ at h.images name.now) }
    {
        match table::row_ref(&self.images, name) {
            Some(image) => Ok(Some(image.copy(alloc)?)),
            None => Ok(None),
        }
    }

    pub(crate) fn receipt_row(
        &self,
        alloc: Global,
        operator: &Name,
        key: RequestKey,
    ) -> Result<Option<Receipt>, AllocError>
        ensures { IfOk result (λ receipt. (h : Hall) → IsHeld self.now h → receipt ≡ at h.receipts (pair operator.now key)) }
    {
        match table::row_ref(&self.receipts, &(*operator, key.octets())) {
            Some(receipt) => Ok(Some(receipt.copy(alloc)?)),
            None => Ok(None),
        }
    }
}

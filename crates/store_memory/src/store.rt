//! The store in memory meets the promise of a store.
ghost use Rattle.std.specs.{Prelude.{◌≡◌, IfOk}, Result.result_ok};
ghost use Rattle.hall_types.specs.Hall.{new_hall, second};

use crate::memory::MemoryStore;
use crate::table;
use hall_store::{Count, HallStore, Unavailable};
use hall_types::{
    Arch, Boot, Change, Digest, Image, Interface, Live, MacAddress, Machine, MachineUuid, Member,
    Moment, Name, Number, Numbers, Operator, Order, Pool, Receipt, RequestKey, arch_number,
};
use std::alloc::{AllocError, Global};

// A refusal of memory is all that can fail a read.
fn answer<Y>(read: Result<Y, AllocError>) -> Result<Y, Unavailable>
    ensures { result_ok result ≡ result_ok read }
{
    Ok(read?)
}

impl MemoryStore {
    /// A new hall: one enabled admin, whose token has this digest, the pool `default`, and no number issued.
    pub fn create(alloc: Global, admin: Name, digest: Digest) -> Result<MemoryStore, Unavailable>
        ensures { IfOk result (λ store. ⟦<MemoryStore as HallStore>⟧.holds store (new_hall second admin digest)) }
    {
        answer(MemoryStore::with_admin(alloc, admin, digest))
    }
}

impl HallStore for MemoryStore {
    ghost use Rattle.std.specs.Prelude.{⊤};
    ghost use Rattle.hall_store.specs.Store.{over_none};
    ghost use Rattle.store_memory.specs.Held.{IsHeld};

    ghost is_clean = { λ s. ⊤ };

    ghost holds = { λ s h. IsHeld s h };

    // nothing is promised of a stop
    ghost leaves = { λ s hs. ⊤ };

    ghost over = { λ s base. over_none s base };

    ghost wider = { λ s h hs left. tt };

    ghost second_schema = { λ s h held. held.schema };

    fn by_mac(&mut self, mac: MacAddress) -> Result<Option<Number>, Unavailable> {
        Ok(self.machine_at_mac(mac))
    }

    fn by_uuid(&mut self, uuid: MachineUuid) -> Result<Option<Number>, Unavailable> {
        Ok(self.machine_at_uuid(uuid))
    }

    fn machine(&mut self, id: Number) -> Result<Option<Machine>, Unavailable> {
        Ok(self.machine_row(id))
    }

    fn boot(&mut self, number: Number) -> Result<Option<Boot>, Unavailable> {
        Ok(table::row(&self.boots, &number.get()))
    }

    fn order(&mut self, number: Number) -> Result<Option<Order>, Unavailable> {
        Ok(table::row(&self.orders, &number.get()))
    }

    fn operator(&mut self, name: &Name) -> Result<Option<Operator>, Unavailable> {
        Ok(table::row(&self.operators, name))
    }

    fn operator_by_digest(&mut self, digest: &Digest) -> Result<Option<Operator>, Unavailable> {
        Ok(self.operator_with(digest))
    }

    fn pool(&mut self, name: &Name) -> Result<Option<Pool>, Unavailable> {
        Ok(table::row(&self.pools, name))
    }

    fn member(&mut self, pool: &Name, operator: &Name) -> Result<Option<Member>, Unavailable> {
        Ok(self.member_row(pool, operator))
    }

    fn image(&mut self, alloc: Global, name: &Name) -> Result<Option<Image>, Unavailable> {
        answer(self.image_row(alloc, name))
    }

    fn image_used(&mut self, name: &Name) -> Result<bool, Unavailable> {
        Ok(self.is_image_used(name))
    }

    fn live(&mut self, arch: Arch) -> Result<Option<Live>, Unavailable> {
        Ok(table::row(&self.lives, &arch_number(arch)))
    }

    fn receipt(
        &mut self,
        alloc: Global,
        operator: &Name,
        key: RequestKey,
    ) -> Result<Option<Receipt>, Unavailable> {
        answer(self.receipt_row(alloc, operator, key))
    }

    fn numbers(&mut self) -> Result<Numbers, Unavailable> {
        Ok(self.numbers)
    }

    fn next_expired(&mut self, moment: Moment) -> Result<Option<Machine>, Unavailable> {
        Ok(self.next_due(moment))
    }

    fn machine_count(&mut self) -> Result<u64, Unavailable> {
        Ok(self.machine_count)
    }

    fn interfaces_of(&mut self, alloc: Global, id: Number) -> Result<Vec<Interface>, Unavailable> {
        answer(self.interfaces_of_machine(alloc, id))
    }

    fn interfaces(&mut self, alloc: Global) -> Result<Vec<Interface>, Unavailable> {
        answer(self.all_interfaces(alloc))
    }

    fn machines(&mut self, alloc: Global) -> Result<Vec<Machine>, Unavailable> {
        answer(self.all_machines(alloc))
    }

    fn waiting_orders(&mut self, alloc: Global) -> Result<Vec<Order>, Unavailable> {
        answer(self.orders_that_wait(alloc))
    }

    fn counts(&mut self, alloc: Global) -> Result<Vec<Count>, Unavailable> {
        answer(self.machine_counts(alloc))
    }

    fn apply(&mut self, change: &Change) -> Result<(), Unavailable> {
        if !self.have_versions(change.writes()) {
            return Err(Unavailable);
        }
        answer(self.apply_all(change.writes()))
    }
}

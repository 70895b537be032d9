//! A store that keeps in memory which machines addresses were found at, and lists.
ghost use Rattle.std.specs.Prelude.{◌≡◌, IfOk, IfErr};
ghost use Rattle.hall_types.specs.Hall.{Hall};
ghost use Rattle.hall_store.specs.Cached.{Keeps, inner};

use crate::count::Count;
use crate::known::Known;
use crate::lists::Lists;
use crate::store::{HallStore, Unavailable};
use hall_types::{
    Arch, Boot, Change, Digest, Image, Interface, Live, MacAddress, Machine, MachineUuid, Member,
    Moment, Name, Number, Numbers, Operator, Order, Pool, Receipt, RequestKey,
};
use std::alloc::{AllocError, Global};

/// A store that asks the store within it, and keeps which machines addresses were found at, 16,384 at most. An address that is
/// kept is answered without a call of the store within. A change of interfaces has it forget them all. It keeps copies of the lists of
/// machines and of interfaces too, which the next change has it forget.
#[derive(Drop)]
pub struct Cached<S> {
    store: S,
    known: Known,
    lists: Lists,
    // The last change was written whole, or an answer was read since: a stop leaves the hall that the store has.
    is_settled: bool,
}

impl<S: HallStore> Cached<S> {
    /// Over a store, with no address. It has the hall that the store has. The error is want of memory for addresses, and gives the
    /// store back.
    pub fn new(alloc: Global, store: S) -> Result<Cached<S>, S>
        ensures made { IfOk result (λ cached. inner cached ≡ store) }
        ensures held { IfOk result (λ cached. (h : Hall) → S.HallStore.holds store h → Keeps S.HallStore.holds S.HallStore.leaves cached h) }
        ensures refused { IfErr result (λ refused. refused ≡ store) }
    {
        match Known::new(alloc) {
            Ok(known) => Ok(Cached {
                store,
                known,
                lists: Lists::new(),
                is_settled: false,
            }),
            Err(AllocError) => Err(store),
        }
    }

    /// The store within.
    pub fn into_inner(self) -> S
        ensures { result ≡ inner self }
    {
        self.store
    }
}

impl<S: HallStore> HallStore for Cached<S> {
    ghost is_clean = { λ cached. S.is_clean (inner cached) };

    ghost holds = { λ cached h. Keeps S.holds S.leaves cached h };

    ghost leaves = { λ cached hs. S.leaves (inner cached) hs };

    ghost over = { λ cached base. S.over (inner cached) base };

    ghost wider = { λ cached h hs left. S.wider (inner cached) h hs left };

    ghost second_schema = { λ cached h kept. S.second_schema (inner cached) h kept.held };

    fn by_mac(&mut self, mac: MacAddress) -> Result<Option<Number>, Unavailable> {
        if let Some(machine) = self.known.find(mac)
            && self.is_settled
        {
            return Ok(Some(machine));
        }
        let answer = self.store.by_mac(mac)?;
        self.is_settled = true;
        if let Some(machine) = answer {
            self.known.keep(mac, machine);
        }
        Ok(answer)
    }

    fn by_uuid(&mut self, uuid: MachineUuid) -> Result<Option<Number>, Unavailable> {
        self.store.by_uuid(uuid)
    }

    fn machine(&mut self, id: Number) -> Result<Option<Machine>, Unavailable> {
        self.store.machine(id)
    }

    fn boot(&mut self, number: Number) -> Result<Option<Boot>, Unavailable> {
        self.store.boot(number)
    }

    fn order(&mut self, number: Number) -> Result<Option<Order>, Unavailable> {
        self.store.order(number)
    }

    fn operator(&mut self, name: &Name) -> Result<Option<Operator>, Unavailable> {
        self.store.operator(name)
    }

    fn operator_by_digest(&mut self, digest: &Digest) -> Result<Option<Operator>, Unavailable> {
        self.store.operator_by_digest(digest)
    }

    fn pool(&mut self, name: &Name) -> Result<Option<Pool>, Unavailable> {
        self.store.pool(name)
    }

    fn member(&mut self, pool: &Name, operator: &Name) -> Result<Option<Member>, Unavailable> {
        self.store.member(pool, operator)
    }

    fn image(&mut self, alloc: Global, name: &Name) -> Result<Option<Image>, Unavailable> {
        self.store.image(alloc, name)
    }

    fn image_used(&mut self, name: &Name) -> Result<bool, Unavailable> {
        self.store.image_used(name)
    }

    fn live(&mut self, arch: Arch) -> Result<Option<Live>, Unavailable> {
        self.store.live(arch)
    }

    fn receipt(
        &mut self,
        alloc: Global,
        operator: &Name,
        key: RequestKey,
    ) -> Result<Option<Receipt>, Unavailable> {
        self.store.receipt(alloc, operator, key)
    }

    fn numbers(&mut self) -> Result<Numbers, Unavailable> {
        self.store.numbers()
    }

    fn next_expired(&mut self, moment: Moment) -> Result<Option<Machine>, Unavailable> {
        self.store.next_expired(moment)
    }

    fn machine_count(&mut self) -> Result<u64, Unavailable> {
        self.store.machine_count()
    }

    fn interfaces_of(&mut self, alloc: Global, id: Number) -> Result<Vec<Interface>, Unavailable> {
        self.store.interfaces_of(alloc, id)
    }

    fn interfaces(&mut self, alloc: Global) -> Result<Vec<Interface>, Unavailable> {
        if self.is_settled
            && let Some(interfaces) = self.lists.interfaces(alloc)
        {
            return Ok(interfaces);
        }
        let interfaces = self.store.interfaces(alloc)?;
        self.is_settled = true;
        self.lists.keep_interfaces(alloc, interfaces.as_slice());
        Ok(interfaces)
    }

    fn machines(&mut self, alloc: Global) -> Result<Vec<Machine>, Unavailable> {
        if self.is_settled
            && let Some(machines) = self.lists.machines(alloc)
        {
            return Ok(machines);
        }
        let machines = self.store.machines(alloc)?;
        self.is_settled = true;
        self.lists.keep_machines(alloc, machines.as_slice());
        Ok(machines)
    }

    fn waiting_orders(&mut self, alloc: Global) -> Result<Vec<Order>, Unavailable> {
        self.store.waiting_orders(alloc)
    }

    fn counts(&mut self, alloc: Global) -> Result<Vec<Count>, Unavailable> {
        self.store.counts(alloc)
    }

    fn apply(&mut self, change: &Change) -> Result<(), Unavailable> {
        self.known.follow(change);
        self.lists.forget();
        let answer = self.store.apply(change);
        self.is_settled = answer.is_ok();
        answer
    }
}

//! A store for tests.
ghost use Rattle.std.specs.Prelude.{◌≡◌};
ghost use Rattle.hall_store.specs.Probe.{inner};

use crate::count::Count;
use crate::store::{HallStore, Unavailable};
use hall_types::{
    Arch, Boot, Change, Digest, Image, Interface, Live, MacAddress, Machine, MachineUuid, Member,
    Moment, Name, Number, Numbers, Operator, Order, Pool, Receipt, RequestKey,
};
use std::alloc::Global;

/// A call of a store.
#[derive(Clone, Copy, PartialEq, Eq)]
pub enum Call {
    ByMac,
    ByUuid,
    Machine,
    Boot,
    Order,
    Operator,
    OperatorByDigest,
    Pool,
    Member,
    Image,
    ImageUsed,
    Live,
    Receipt,
    Numbers,
    NextExpired,
    MachineCount,
    InterfacesOf,
    Interfaces,
    Machines,
    WaitingOrders,
    Counts,
    Apply,
}

const CALLS: usize = 22;

/// A store that counts the calls of the store within it, and answers `Unavailable` at one of them without
/// asking it. It has the hall that the store within it has.
#[derive(Drop)]
pub struct Probe<S> {
    store: S,
    fails_at: Option<u64>,
    calls: u64,
    calls_of: [u64; CALLS],
}

impl<S> Probe<S> {
    /// `fails_at` is the call that fails, the first being 1.
    pub fn new(store: S, fails_at: Option<u64>) -> Probe<S>
        ensures { inner result ≡ store }
    {
        Probe {
            store,
            fails_at,
            calls: 0,
            calls_of: [0; CALLS],
        }
    }

    /// How many calls there were, the one that failed among them.
    pub fn calls(&self) -> u64 {
        self.calls
    }

    /// How many calls of a method there were.
    pub fn calls_of(&self, call: Call) -> u64 {
        self.calls_of[call as usize]
    }

    pub fn into_inner(self) -> S
        ensures { result ≡ inner self }
    {
        self.store
    }

    // Counts a call, which may be the one that is to fail.
    fn ask(&mut self, call: Call) -> Result<(), Unavailable>
        ensures { inner self.new ≡ inner self.old }
    {
        let place = call as usize;
        self.calls_of[place] = self.calls_of[place].saturating_add(1);
        self.calls = self.calls.saturating_add(1);
        if self.fails_at == Some(self.calls) {
            return Err(Unavailable);
        }
        Ok(())
    }
}

impl<S: HallStore> HallStore for Probe<S> {
    ghost is_clean = { λ probe. S.is_clean (inner probe) };

    ghost holds = { λ probe h. S.holds (inner probe) h };

    ghost leaves = { λ probe hs. S.leaves (inner probe) hs };

    ghost over = { λ probe base. S.over (inner probe) base };

    ghost wider = { λ probe h hs left. S.wider (inner probe) h hs left };

    ghost second_schema = { λ probe h held. S.second_schema (inner probe) h held };

    fn by_mac(&mut self, mac: MacAddress) -> Result<Option<Number>, Unavailable> {
        self.ask(Call::ByMac)?;
        self.store.by_mac(mac)
    }

    fn by_uuid(&mut self, uuid: MachineUuid) -> Result<Option<Number>, Unavailable> {
        self.ask(Call::ByUuid)?;
        self.store.by_uuid(uuid)
    }

    fn machine(&mut self, id: Number) -> Result<Option<Machine>, Unavailable> {
        self.ask(Call::Machine)?;
        self.store.machine(id)
    }

    fn boot(&mut self, number: Number) -> Result<Option<Boot>, Unavailable> {
        self.ask(Call::Boot)?;
        self.store.boot(number)
    }

    fn order(&mut self, number: Number) -> Result<Option<Order>, Unavailable> {
        self.ask(Call::Order)?;
        self.store.order(number)
    }

    fn operator(&mut self, name: &Name) -> Result<Option<Operator>, Unavailable> {
        self.ask(Call::Operator)?;
        self.store.operator(name)
    }

    fn operator_by_digest(&mut self, digest: &Digest) -> Result<Option<Operator>, Unavailable> {
        self.ask(Call::OperatorByDigest)?;
        self.store.operator_by_digest(digest)
    }

    fn pool(&mut self, name: &Name) -> Result<Option<Pool>, Unavailable> {
        self.ask(Call::Pool)?;
        self.store.pool(name)
    }

    fn member(&mut self, pool: &Name, operator: &Name) -> Result<Option<Member>, Unavailable> {
        self.ask(Call::Member)?;
        self.store.member(pool, operator)
    }

    fn image(&mut self, alloc: Global, name: &Name) -> Result<Option<Image>, Unavailable> {
        self.ask(Call::Image)?;
        self.store.image(alloc, name)
    }

    fn image_used(&mut self, name: &Name) -> Result<bool, Unavailable> {
        self.ask(Call::ImageUsed)?;
        self.store.image_used(name)
    }

    fn live(&mut self, arch: Arch) -> Result<Option<Live>, Unavailable> {
        self.ask(Call::Live)?;
        self.store.live(arch)
    }

    fn receipt(
        &mut self,
        alloc: Global,
        operator: &Name,
        key: RequestKey,
    ) -> Result<Option<Receipt>, Unavailable> {
        self.ask(Call::Receipt)?;
        self.store.receipt(alloc, operator, key)
    }

    fn numbers(&mut self) -> Result<Numbers, Unavailable> {
        self.ask(Call::Numbers)?;
        self.store.numbers()
    }

    fn next_expired(&mut self, moment: Moment) -> Result<Option<Machine>, Unavailable> {
        self.ask(Call::NextExpired)?;
        self.store.next_expired(moment)
    }

    fn machine_count(&mut self) -> Result<u64, Unavailable> {
        self.ask(Call::MachineCount)?;
        self.store.machine_count()
    }

    fn interfaces_of(&mut self, alloc: Global, id: Number) -> Result<Vec<Interface>, Unavailable> {
        self.ask(Call::InterfacesOf)?;
        self.store.interfaces_of(alloc, id)
    }

    fn interfaces(&mut self, alloc: Global) -> Result<Vec<Interface>, Unavailable> {
        self.ask(Call::Interfaces)?;
        self.store.interfaces(alloc)
    }

    fn machines(&mut self, alloc: Global) -> Result<Vec<Machine>, Unavailable> {
        self.ask(Call::Machines)?;
        self.store.machines(alloc)
    }

    fn waiting_orders(&mut self, alloc: Global) -> Result<Vec<Order>, Unavailable> {
        self.ask(Call::WaitingOrders)?;
        self.store.waiting_orders(alloc)
    }

    fn counts(&mut self, alloc: Global) -> Result<Vec<Count>, Unavailable> {
        self.ask(Call::Counts)?;
        self.store.counts(alloc)
    }

    fn apply(&mut self, change: &Change) -> Result<(), Unavailable> {
        self.ask(Call::Apply)?;
        self.store.apply(change)
    }
}

//! A group meets the promise of a store, and that of a store that can hold changes back.
ghost use Rattle.std.specs.Prelude.{◌≡◌, [], IfOk, OnOk, option_map};
ghost use Rattle.hall_types.specs.{Hall.{Hall, applied}, Tables.{interfaces, members, operators}};
ghost use Rattle.hall_store.specs.Versions.{HasVersion, HaveVersions};
ghost use Rattle.store_group.specs.Group.{GroupLooks, IsOver, LeadsTo, LeavesOf, change, is_open, leads_second, store_of, writes_of};

use crate::group::Group;
use crate::keyed::{Keyed, after_all};
use hall_store::{Count, GroupStore, HallStore, Unavailable, copies};
use hall_types::{
    Arch, Boot, Change, Digest, Image, Interface, Live, MacAddress, Machine, MachineUuid, Member,
    Moment, Name, Number, Numbers, Operator, Order, Pool, Receipt, RequestKey, RowWrite, Version,
};
use std::alloc::Global;
use std::mem;

// Whether one of the row writes changes operators.
fn change_operators(writes: &[RowWrite]) -> bool
    ensures { result ≡ change operators writes.now }
{
    writes.iter().any(|row| match row {
        RowWrite::PutOperator(_) => true,
        _ => false,
    })
}

// Whether one of the row writes changes members.
fn change_members(writes: &[RowWrite]) -> bool
    ensures { result ≡ change members writes.now }
{
    writes.iter().any(|row| match row {
        RowWrite::PutMember(_) => true,
        _ => false,
    })
}

// Whether one of the row writes changes interfaces.
fn change_interfaces(writes: &[RowWrite]) -> bool
    ensures { result ≡ change interfaces writes.now }
{
    writes.iter().any(|row| match row {
        RowWrite::PutInterface(_) | RowWrite::InterfaceGone(_) | RowWrite::MachineGone(_) => true,
        _ => false,
    })
}

// The version of a machine, if there is one.
fn version(machine: &Option<Machine>) -> Option<Version>
    ensures { result ≡ option_map (λ m. m.version) machine.now }
{
    match machine {
        Some(machine) => Some(machine.version),
        None => None,
    }
}

impl<S: HallStore> Group<S> {
    // A row as the group has it, where the store within has it so.
    fn as_led<X: Drop, K: Keyed<X>>(
        &self,
        alloc: Global,
        key: &K,
        row: Option<X>,
    ) -> Result<Option<X>, Unavailable>
        ensures { (h : Hall) → row ≡ K.Keyed.row_in key.now h → IfOk result (λ last. last ≡ K.Keyed.row_in key.now (applied self.now.writes.items h)) }
    {
        Ok(after_all(alloc, key, row, &self.writes)?)
    }

    // Whether a row write has the version that it expects after some others.
    fn check_version(&mut self, before: &[RowWrite], write: &RowWrite) -> Result<(), Unavailable>
        ensures checked { GroupLooks S.HallStore self.old self.new result (λ h answer. HasVersion write.now (applied before.now h)) }
        ensures writes { writes_of self.new ≡ writes_of self.old }
        ensures opened { is_open self.new ≡ is_open self.old }
    {
        let RowWrite::PutMachine { machine, was } = write else {
            return Ok(());
        };
        let row = self.store.machine(machine.id)?;
        let held = self.as_led(self.alloc, &machine.id, row)?;
        let now = after_all(self.alloc, &machine.id, held, before)?;
        if *was == version(&now) {
            Ok(())
        } else {
            Err(Unavailable)
        }
    }

    // Whether each row write has the version that it expects, in the hall to which the group and the writes before it lead.
    fn check_versions(&mut self, writes: &[RowWrite]) -> Result<(), Unavailable>
        ensures checked { GroupLooks S.HallStore self.old self.new result (λ h answer. HaveVersions writes.now h) }
        ensures writes { writes_of self.new ≡ writes_of self.old }
        ensures opened { is_open self.new ≡ is_open self.old }
    {
        'writes: for i in 0..writes.len() {
            self.check_version(&writes[..i], &writes[i])?;
        }
        Ok(())
    }

    // Only a group without a change can answer this.
    fn none_held(&self) -> Result<(), Unavailable>
        ensures { OnOk result (self.now.writes.items ≡ []) }
    {
        if self.writes.is_empty() {
            Ok(())
        } else {
            Err(Unavailable)
        }
    }
}

impl<S: HallStore> HallStore for Group<S> {
    ghost is_clean = { λ group. S.is_clean (store_of group) };

    ghost holds = { λ group h. LeadsTo S.HallStore group h };

    ghost leaves = { λ group hs. LeavesOf S.HallStore group hs };

    ghost over = { λ group base. IsOver S.HallStore group base };

    ghost wider = { λ group h hs left closed. S.wider (store_of group) h hs (left closed) };

    ghost second_schema = { λ group h leads. leads_second S.HallStore S.second_schema group h leads };

    fn by_mac(&mut self, mac: MacAddress) -> Result<Option<Number>, Unavailable> {
        if change_interfaces(&self.writes) {
            return Err(Unavailable);
        }
        self.store.by_mac(mac)
    }

    fn by_uuid(&mut self, uuid: MachineUuid) -> Result<Option<Number>, Unavailable> {
        self.none_held()?;
        self.store.by_uuid(uuid)
    }

    fn machine(&mut self, id: Number) -> Result<Option<Machine>, Unavailable> {
        let machine = self.store.machine(id)?;
        self.as_led(self.alloc, &id, machine)
    }

    fn boot(&mut self, number: Number) -> Result<Option<Boot>, Unavailable> {
        let boot = self.store.boot(number)?;
        self.as_led(self.alloc, &number, boot)
    }

    fn order(&mut self, number: Number) -> Result<Option<Order>, Unavailable> {
        let order = self.store.order(number)?;
        self.as_led(self.alloc, &number, order)
    }

    fn operator(&mut self, name: &Name) -> Result<Option<Operator>, Unavailable> {
        let operator = self.store.operator(name)?;
        self.as_led(self.alloc, name, operator)
    }

    fn operator_by_digest(&mut self, digest: &Digest) -> Result<Option<Operator>, Unavailable> {
        if change_operators(&self.writes) {
            return Err(Unavailable);
        }
        self.store.operator_by_digest(digest)
    }

    fn pool(&mut self, name: &Name) -> Result<Option<Pool>, Unavailable> {
        let pool = self.store.pool(name)?;
        self.as_led(self.alloc, name, pool)
    }

    fn member(&mut self, pool: &Name, operator: &Name) -> Result<Option<Member>, Unavailable> {
        if change_members(&self.writes) {
            return Err(Unavailable);
        }
        self.store.member(pool, operator)
    }

    fn image(&mut self, alloc: Global, name: &Name) -> Result<Option<Image>, Unavailable> {
        let image = self.store.image(alloc, name)?;
        self.as_led(alloc, name, image)
    }

    fn image_used(&mut self, name: &Name) -> Result<bool, Unavailable> {
        self.none_held()?;
        self.store.image_used(name)
    }

    fn live(&mut self, arch: Arch) -> Result<Option<Live>, Unavailable> {
        let live = self.store.live(arch)?;
        self.as_led(self.alloc, &arch, live)
    }

    fn receipt(
        &mut self,
        alloc: Global,
        operator: &Name,
        key: RequestKey,
    ) -> Result<Option<Receipt>, Unavailable> {
        let receipt = self.store.receipt(alloc, operator, key)?;
        self.as_led(alloc, &(*operator, key), receipt)
    }

    fn numbers(&mut self) -> Result<Numbers, Unavailable> {
        let numbers = self.store.numbers()?;
        match self.as_led(self.alloc, &(), Some(numbers))? {
            Some(numbers) => Ok(numbers),
            None => Err(Unavailable),
        }
    }

    fn next_expired(&mut self, moment: Moment) -> Result<Option<Machine>, Unavailable> {
        self.none_held()?;
        self.store.next_expired(moment)
    }

    fn machine_count(&mut self) -> Result<u64, Unavailable> {
        self.none_held()?;
        self.store.machine_count()
    }

    fn interfaces_of(&mut self, alloc: Global, id: Number) -> Result<Vec<Interface>, Unavailable> {
        if change_interfaces(&self.writes) {
            return Err(Unavailable);
        }
        self.store.interfaces_of(alloc, id)
    }

    fn interfaces(&mut self, alloc: Global) -> Result<Vec<Interface>, Unavailable> {
        self.none_held()?;
        self.store.interfaces(alloc)
    }

    fn machines(&mut self, alloc: Global) -> Result<Vec<Machine>, Unavailable> {
        self.none_held()?;
        self.store.machines(alloc)
    }

    fn waiting_orders(&mut self, alloc: Global) -> Result<Vec<Order>, Unavailable> {
        self.none_held()?;
        self.store.waiting_orders(alloc)
    }

    fn counts(&mut self, alloc: Global) -> Result<Vec<Count>, Unavailable> {
        self.none_held()?;
        self.store.counts(alloc)
    }

    fn apply(&mut self, change: &Change) -> Result<(), Unavailable> {
        if !self.is_open {
            return self.store.apply(change);
        }
        self.check_versions(change.writes())?;
        let mut writes = copies(self.alloc, change.writes())?;
        self.writes.append(&mut writes)?;
        Ok(())
    }
}

impl<S: HallStore> GroupStore for Group<S> {
    fn begin(&mut self) -> Result<(), Unavailable> {
        if self.is_open {
            return Err(Unavailable);
        }
        self.is_open = true;
        Ok(())
    }

    fn commit(&mut self) -> Result<(), Unavailable> {
        let writes = mem::replace(&mut self.writes, Vec::new(self.alloc));
        self.is_open = false;
        self.store.apply(&Change::from(writes))
    }

    fn roll_back(&mut self) {
        self.writes.clear();
        self.is_open = false;
    }
}

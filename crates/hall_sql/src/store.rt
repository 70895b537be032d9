//! The store over SQLite meets the promise of a store.
ghost use Rattle.sql_schema.specs.Words.{state, Hall, Holds, IsHeld};
ghost use Rattle.std.specs.Prelude.{◌≡◌, [], ◌∷◌};
ghost use Rattle.hall_sql.specs.Store.{connection};

use crate::applying::write_rows;
use crate::asking::{is_image_used, machine_at};
use crate::counting::count_machines;
use crate::expiring::earliest_after;
use hall_store::{Count, HallStore, Unavailable};
use hall_types::{
    Boot, Change, Digest, Image, Interface, Live, MacAddress, Machine, MachineUuid, Member, Moment,
    Name, Number, Numbers, Operator, Order, Pool, Receipt, RequestKey, arch_number,
};
use pxe_vendor::Arch;
use sql_items::{
    Boots, FIND_DIGEST, FIND_INTERFACES, Interfaces, LIST_INTERFACES, LIST_WAITING_ORDERS, Lives,
    Members, Operators, Orders, Pools, Receipts, find_image, find_machine, find_numbers, find_uuid,
    list_counts, list_machines,
};
use sql_schema::creating::{
    FIND_BOOT, FIND_LIVE, FIND_MEMBER, FIND_OPERATOR, FIND_ORDER, FIND_POOL, FIND_RECEIPT,
};
use sql_schema::{
    ask_all, ask_first, ask_one, name_value, number_value, octets_value, small_value,
};
use sqlite::{Alter, Connection};
use std::alloc::Global;

// What a read of the connection answers, passed on. A store that has stopped asks nothing any more.
macro_rules! ask {
    ($store:ident, $read:expr) => {{
        if $store.stopped {
            return Err(Unavailable);
        }
        let answer = $read;
        $store.pass(answer)
    }};
}

// The row of a table with a key.
macro_rules! find {
    ($store:ident, $table:ty, $sql:expr, $($key:expr),+) => {
        ask!($store, ask_one::<$table, S>(&mut $store.conn, $sql, &[$($key),+]))
    };
}

/// A hall in the tables of a database.
///
/// Once a fault has shut the connection, the store answers `Unavailable` for good: a store over a new connection goes on
/// with what was committed.
#[derive(Drop)]
pub struct SqlStore<S: Alter> {
    pub(crate) alloc: Global,
    pub(crate) conn: Connection<S>,
    // A fault has shut the connection, and nothing is asked of it any more.
    pub(crate) stopped: bool,
    // No machine has an earlier deadline. In seconds since 1970-01-01 00:00:00 UTC.
    pub(crate) earliest: u64,
}

impl<S: Alter> SqlStore<S> {
    /// The store of the hall that the connection's tables spell. `alloc` is for what the store reads for itself.
    pub fn over(alloc: Global, conn: Connection<S>) -> SqlStore<S>
        ensures held { (h : Hall) → IsHeld (state S.Store conn) h → ⟦<SqlStore<S> as HallStore>⟧.holds result h }
        ensures settled { (h : Hall) → IsHeld (state S.Store conn) h → ⟦<SqlStore<S> as HallStore>⟧.leaves result (h ∷ []) }
        ensures conn { connection result ≡ conn }
    {
        SqlStore {
            alloc,
            conn,
            stopped: false,
            earliest: 0,
        }
    }

    /// The connection, as the last call left it: as long as it is open, it holds the hall that the store has.
    pub fn into_connection(self) -> Connection<S>
        ensures conn { result ≡ connection self }
        ensures held { (h : Hall) → ⟦<SqlStore<S> as HallStore>⟧.holds self h → Holds (state S.Store result) h }
    {
        self.conn
    }
}

impl<S: Alter> HallStore for SqlStore<S> {
    ghost use Rattle.std.proofs.Common.{inr};
    ghost use Rattle.sqlite.specs.{Held.state, State.HasCleanDisk};
    ghost use Rattle.hall_store.specs.Store.{over_none};
    ghost use Rattle.hall_sql.specs.Store.{HasHall, StopLeaves};

    ghost is_clean = { λ s. HasCleanDisk (state S.Store s.conn) };

    ghost holds = { λ s h. HasHall S.Store s h };

    ghost leaves = { λ s hs. StopLeaves S.Store s hs };

    ghost over = { λ s base. over_none s base };

    ghost wider = { λ s h hs left db may. ((left db may).0, inr (left db may).1, (left db may).2) };

    ghost second_schema = { λ s h has. has.schema };

    fn by_mac(&mut self, mac: MacAddress) -> Result<Option<Number>, Unavailable> {
        ask!(self, machine_at(&mut self.conn, mac))
    }

    fn by_uuid(&mut self, uuid: MachineUuid) -> Result<Option<Number>, Unavailable> {
        ask!(self, find_uuid(&mut self.conn, uuid))
    }

    fn machine(&mut self, id: Number) -> Result<Option<Machine>, Unavailable> {
        ask!(self, find_machine(&mut self.conn, id))
    }

    fn boot(&mut self, number: Number) -> Result<Option<Boot>, Unavailable> {
        find!(self, Boots, FIND_BOOT, number_value(number.get()))
    }

    fn order(&mut self, number: Number) -> Result<Option<Order>, Unavailable> {
        find!(self, Orders, FIND_ORDER, number_value(number.get()))
    }

    fn operator(&mut self, name: &Name) -> Result<Option<Operator>, Unavailable> {
        find!(self, Operators, FIND_OPERATOR, name_value(name))
    }

    fn operator_by_digest(&mut self, digest: &Digest) -> Result<Option<Operator>, Unavailable> {
        let octets = digest.octets();
        ask!(
            self,
            ask_first::<Operators, S>(&mut self.conn, FIND_DIGEST, &[octets_value(&octets)])
        )
    }

    fn pool(&mut self, name: &Name) -> Result<Option<Pool>, Unavailable> {
        find!(self, Pools, FIND_POOL, name_value(name))
    }

    fn member(&mut self, pool: &Name, operator: &Name) -> Result<Option<Member>, Unavailable> {
        find!(
            self,
            Members,
            FIND_MEMBER,
            name_value(pool),
            name_value(operator)
        )
    }

    fn image(&mut self, alloc: Global, name: &Name) -> Result<Option<Image>, Unavailable> {
        ask!(self, find_image(alloc, &mut self.conn, name))
    }

    fn image_used(&mut self, name: &Name) -> Result<bool, Unavailable> {
        ask!(self, is_image_used(&mut self.conn, name))
    }

    fn live(&mut self, arch: Arch) -> Result<Option<Live>, Unavailable> {
        find!(self, Lives, FIND_LIVE, small_value(arch_number(arch)))
    }

    fn receipt(
        &mut self,
        alloc: Global,
        operator: &Name,
        key: RequestKey,
    ) -> Result<Option<Receipt>, Unavailable> {
        let octets = key.octets();
        find!(
            self,
            Receipts,
            FIND_RECEIPT,
            name_value(operator),
            octets_value(&octets)
        )
    }

    fn numbers(&mut self) -> Result<Numbers, Unavailable> {
        ask!(self, find_numbers(&mut self.conn))
    }

    fn next_expired(&mut self, moment: Moment) -> Result<Option<Machine>, Unavailable> {
        self.next_due(moment)
    }

    fn machine_count(&mut self) -> Result<u64, Unavailable> {
        ask!(self, count_machines(self.alloc, &mut self.conn))
    }

    fn interfaces_of(&mut self, alloc: Global, id: Number) -> Result<Vec<Interface>, Unavailable> {
        let machine = [number_value(id.get())];
        ask!(
            self,
            ask_all::<Interfaces, S>(&mut self.conn, alloc, FIND_INTERFACES, &machine)
        )
    }

    fn interfaces(&mut self, alloc: Global) -> Result<Vec<Interface>, Unavailable> {
        ask!(
            self,
            ask_all::<Interfaces, S>(&mut self.conn, alloc, LIST_INTERFACES, &[])
        )
    }

    fn machines(&mut self, alloc: Global) -> Result<Vec<Machine>, Unavailable> {
        ask!(self, list_machines(&mut self.conn, alloc))
    }

    fn waiting_orders(&mut self, alloc: Global) -> Result<Vec<Order>, Unavailable> {
        ask!(
            self,
            ask_all::<Orders, S>(&mut self.conn, alloc, LIST_WAITING_ORDERS, &[])
        )
    }

    fn counts(&mut self, alloc: Global) -> Result<Vec<Count>, Unavailable> {
        ask!(self, list_counts(alloc, &mut self.conn))
    }

    fn apply(&mut self, change: &Change) -> Result<(), Unavailable> {
        if self.stopped {
            return Err(Unavailable);
        }
        self.earliest = earliest_after(self.earliest, change.writes());
        let answer = write_rows(self.alloc, &mut self.conn, change.writes());
        self.pass(answer)
    }
}

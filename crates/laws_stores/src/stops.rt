//! A hall in SQLite over a stop, and what comes to it once its tables are opened again.
ghost use Rattle.std.specs.Prelude.{ℕ, List, None, IfOk};
ghost use Rattle.store_group.specs.Group.{store_of};
ghost use Rattle.laws_stores.specs.Prelude.{state, Trees, Site, Hall, SpellHall, Headline, Item, Origin, AndCutRun, IsEnd, IsLeft, IsSettled, OrTogether, OrUnanswered, OrUnreplied, Answer, Arrival, Event, connection};

use hall_sql::{Refused, SqlStore};
use hall_store::HallStore;
use sql_tables::OpenFault;
use sqlite::{Alter, Connection};
use std::alloc::Global;
use store_group::Group;

/// All tables that a stop may leave of a desk's store, by the clause `stop` of the call, spell a hall to which one of that clause's
/// histories leads.
pub fn stops_leave_ends<S: Alter>(store: &SqlStore<S>)
    ensures answer { (origin : Origin) (past : List Item) (site : Site) (arrival : Arrival)
        → IsLeft ⟦<SqlStore<S> as HallStore>⟧ store.now origin (OrUnanswered past site arrival)
        → (db : Trees) → (state S.Store (connection store.now)).may_leave db → (h : Hall) × SpellHall db h × IsEnd origin (OrUnanswered past site arrival) h }
    ensures run { (origin : Origin) (past : List Item) (site : Site) (arrivals : List Arrival) (answers : List Answer)
        → IsLeft ⟦<SqlStore<S> as HallStore>⟧ store.now origin (AndCutRun past site arrivals answers)
        → (db : Trees) → (state S.Store (connection store.now)).may_leave db → (h : Hall) × SpellHall db h × IsEnd origin (AndCutRun past site arrivals answers) h }
    ensures step { (origin : Origin) (past : List Item) (site : Site) (e : Event) (moment : ℕ) (fresh : List ℕ)
        → IsLeft ⟦<SqlStore<S> as HallStore>⟧ store.now origin (OrUnreplied past site e moment fresh)
        → (db : Trees) → (state S.Store (connection store.now)).may_leave db → (h : Hall) × SpellHall db h × IsEnd origin (OrUnreplied past site e moment fresh) h }
{
    let _ = store;
}

/// The same of a desk's store over which groups are made, while none is open: all tables that a stop may leave of the store within spell a
/// hall to which one of the clause's histories leads. So the arrivals of a group are there together, or none is.
pub fn stops_leave_ends_of_groups<S: Alter>(group: &Group<SqlStore<S>>)
    ensures together { ⟦<Group<SqlStore<S>> as HallStore>⟧.over group.now None → (origin : Origin) (past : List Item) (site : Site) (arrivals : List Arrival)
        → IsLeft ⟦<Group<SqlStore<S>> as HallStore>⟧ group.now origin (OrTogether past site arrivals)
        → (db : Trees) → (state S.Store (connection (store_of group.now))).may_leave db → (h : Hall) × SpellHall db h × IsEnd origin (OrTogether past site arrivals) h }
    ensures run { ⟦<Group<SqlStore<S>> as HallStore>⟧.over group.now None → (origin : Origin) (past : List Item) (site : Site) (arrivals : List Arrival) (answers : List Answer)
        → IsLeft ⟦<Group<SqlStore<S>> as HallStore>⟧ group.now origin (AndCutRun past site arrivals answers)
        → (db : Trees) → (state S.Store (connection (store_of group.now))).may_leave db → (h : Hall) × SpellHall db h × IsEnd origin (AndCutRun past site arrivals answers) h }
{
    let _ = group;
}

/// Opens the tables of a hall to which a history leads, as a stop or a store that was closed left them: the store has that hall, a
/// stop leaves it alone, and what comes next is added to that history.
///
/// # Errors
///
/// Those of `SqlStore::open`.
pub fn open_again<S: Alter>(
    alloc: Global,
    conn: Connection<S>,
) -> Result<SqlStore<S>, Refused<S, OpenFault>>
    ensures { IfOk result (λ store. ⟦<SqlStore<S> as HallStore>⟧.is_clean store → (origin : Origin) (items : List Item) (h : Hall)
        → Headline origin items h → SpellHall (state S.Store conn).now.trees h
        → IsSettled ⟦<SqlStore<S> as HallStore>⟧ store origin items) }
{
    SqlStore::open(alloc, conn)
}

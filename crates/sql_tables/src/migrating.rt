//! The tables of a hall of the first schema are carried over to the second, in one transaction.
ghost use Rattle.sql_schema.specs.{Words.{is_used, state, HasCleanDisk, IsLive, Survives, Hall, Machine, machine_values, IsHeld, Leaves, HallRows, Spells}, Steps.IsStep};
ghost use Rattle.sql_tables.specs.{Indexes.all_indexes, Opening.NamesNoSchema, Creating.{IsMade, KeepsTables, MayLeaveBesides}, Migrating.{BecomeHall, IsCarriedOver, IsFirst, IsRightMigration, carried_rows, is_erasing, with_kind_of, with_kinds_of}};
ghost use Rattle.std.specs.Prelude.{◌≡◌, ◌≢◌, ◌⊎◌, Err, IfErr, IfOk, IsTrue, List, Ok, OnErr, OnOk, [], ◌∷◌, codes, false, map, true};

use crate::creating::is_used;
use crate::fault::OpenFault;
use crate::indexes::{Indexes, make_missing};
use crate::looking::Wanted;
use crate::opening::{look_at_tables, look_for};
use crate::running::{ask, end, run};
use hall_types::{Erase, Number, Status};
use sql_schema::creating::{ADD_WIPE, CREATE_WIPES, LIST_MACHINES};
use sql_schema::{kind_in, number_in, number_value, small_value};
use sqlite::{Alter, Connection, Error, Row, Transaction};

/// What became of tables that were to be carried over.
#[derive(Clone, Copy, Debug, PartialEq, Eq)]
pub enum Migrated {
    /// They were those of the first schema, and are those of the second now.
    Now,
    /// They were those of the second schema already.
    Already,
}

// The schema that `hall` names becomes the second.
const SET_SCHEMA: &str = "UPDATE hall SET schema = 2 WHERE one = 1";

// Whether disks are to be erased in this status, or were to be.
fn is_erasing(status: Status) -> bool
    ensures { result ≡ is_erasing status }
{
    match status {
        Status::DiskErasing | Status::FailedDiskErasing => true,
        _ => false,
    }
}

// The kind of erasing of the machine in a row, if its disks are to be erased, or were to be.
fn put_kind<S: Alter>(tx: &mut Transaction<'_, S>, row: &Row) -> Result<(), Error>
    ensures same_reference { tx.new.conn.ghost_name ≡ tx.old.conn.ghost_name }
    ensures made { HasCleanDisk (state S.Store tx.new.conn.now) → IsStep (state S.Store tx.old.conn.now) (state S.Store tx.new.conn.now) result (λ _. (c : HallRows) (m : Machine) → row.now ≡ machine_values m → Spells (state S.Store tx.old.conn.now).now c → Spells (state S.Store tx.new.conn.now).now (with_kind_of c m)) }
    ensures survives { Survives (state S.Store tx.old.conn.now) (state S.Store tx.new.conn.now) (λ _. ⊥) }
{
    let id = number_in(row, 0)?;
    let status = kind_in(row, 4)?;
    if is_erasing(status) {
        run(
            tx,
            ADD_WIPE,
            &[number_value(id.get()), small_value(Erase::Full.number())],
        )
    } else {
        Ok(())
    }
}

// The kinds of erasing of the machines in these rows.
fn put_kinds<S: Alter>(tx: &mut Transaction<'_, S>, rows: &Vec<Row>) -> Result<(), Error>
    ensures same_reference { tx.new.conn.ghost_name ≡ tx.old.conn.ghost_name }
    ensures made { HasCleanDisk (state S.Store tx.new.conn.now) → IsStep (state S.Store tx.old.conn.now) (state S.Store tx.new.conn.now) result (λ _. (c : HallRows) (ms : List Machine) → rows.now.items ≡ map machine_values ms → Spells (state S.Store tx.old.conn.now).now c → Spells (state S.Store tx.new.conn.now).now (with_kinds_of c ms)) }
    ensures survives { Survives (state S.Store tx.old.conn.now) (state S.Store tx.new.conn.now) (λ _. ⊥) }
{
    'rows: for row in rows {
        put_kind(tx, row)?;
    }
    Ok(())
}

// The table of kinds of erasing is made, the tables name the second schema, and each machine has its kind. Before that, indexes are made that
// are missing.
fn carry_over<S: Alter>(tx: &mut Transaction<'_, S>, there: Indexes) -> Result<(), Error>
    ensures same_reference { tx.new.conn.ghost_name ≡ tx.old.conn.ghost_name }
    ensures made { HasCleanDisk (state S.Store tx.new.conn.now) → IsStep (state S.Store tx.old.conn.now) (state S.Store tx.new.conn.now) result (λ _. (h : Hall) → there ≡ all_indexes → IsFirst (state S.Store tx.old.conn.now).now h → Spells (state S.Store tx.new.conn.now).now (carried_rows h)) }
    ensures survives { Survives (state S.Store tx.old.conn.now) (state S.Store tx.new.conn.now) (λ _. ⊥) }
{
    make_missing(tx, there)?;
    run(tx, CREATE_WIPES, &[])?;
    run(tx, SET_SCHEMA, &[])?;
    let rows = ask(tx, LIST_MACHINES)?;
    put_kinds(tx, &rows)
}

// The tables of the first schema are carried over in one transaction, unless something has the name of the table that is to be made.
fn carry_first<S: Alter>(conn: &mut Connection<S>) -> Result<(), OpenFault>
    ensures clean { HasCleanDisk (state S.Store conn.new) → HasCleanDisk (state S.Store conn.old) }
    ensures made { HasCleanDisk (state S.Store conn.new) → (h next : Hall) → IsFirst (state S.Store conn.old).now h → IsCarriedOver h next → IsMade (state S.Store conn.old) (state S.Store conn.new) result next }
    ensures free { IfOk result (λ _. is_used (state S.Store conn.old).now.schema (codes "wipes") ≡ false) }
    ensures used { result ≡ Err OpenFault.NotAHall → is_used (state S.Store conn.old).now.schema (codes "wipes") ≡ true }
    ensures never { result ≢ Err OpenFault.OtherVersion }
    ensures refused { HasCleanDisk (state S.Store conn.new) → OnErr result (KeepsTables (state S.Store conn.old) (state S.Store conn.new)) }
{
    if is_used(conn.schema(), "wipes") {
        return Err(OpenFault::NotAHall);
    }
    if !conn.is_autocommit() {
        return Err(OpenFault::Unavailable);
    }
    let there = Indexes::of(conn.schema());
    let mut tx = conn.transaction();
    let done = carry_over(&mut tx, there);
    end(tx, done, OpenFault::Unavailable)
}

// Tables of the first schema are carried over, and those of the second are looked at.
fn migrate<S: Alter>(conn: &mut Connection<S>) -> Result<Migrated, OpenFault>
    ensures live { IsLive (state S.Store conn.old) }
    ensures clean { HasCleanDisk (state S.Store conn.new) → HasCleanDisk (state S.Store conn.old) }
    ensures made { HasCleanDisk (state S.Store conn.new) → (h : Hall) → BecomeHall (state S.Store conn.old).now.trees h → IsMade (state S.Store conn.old) (state S.Store conn.new) result h }
    ensures answered { HasCleanDisk (state S.Store conn.new) → IsRightMigration (state S.Store conn.old).now result }
    ensures kept { HasCleanDisk (state S.Store conn.new) → result ≢ Ok Migrated.Now → KeepsTables (state S.Store conn.old) (state S.Store conn.new) }
{
    match look_for(conn, Wanted::First) {
        Ok(()) => match carry_first(conn) {
            Ok(()) => Ok(Migrated::Now),
            Err(fault) => Err(fault),
        },
        Err(OpenFault::OtherVersion) => match look_at_tables(conn) {
            Ok(()) => Ok(Migrated::Already),
            Err(fault) => Err(fault),
        },
        Err(fault) => Err(fault),
    }
}

/// Carries the tables of a hall of the first schema over to the second, in one transaction: the table of kinds of erasing is made, with
/// a row for each machine whose disks are to be erased, or were to be, all of them in full, and the tables name the second schema. Indexes
/// that are missing are made. No other row changes. Tables of the second schema stay as they are. A file that is neither is refused as
/// `OtherVersion`, and one that lacks a table, or has a table `wipes` beside the first schema, as `NotAHall`; a refusal leaves the tables
/// as they were.
pub fn migrate_tables<S: Alter>(conn: &mut Connection<S>) -> Result<Migrated, OpenFault>
    ensures clean { HasCleanDisk (state S.Store conn.new) → HasCleanDisk (state S.Store conn.old) }
    ensures held { HasCleanDisk (state S.Store conn.new) → OnOk result ((h : Hall) → BecomeHall (state S.Store conn.old).now.trees h → IsHeld (state S.Store conn.new) h) }
    ensures settled { HasCleanDisk (state S.Store conn.new) → OnOk result ((h : Hall) → BecomeHall (state S.Store conn.old).now.trees h → Leaves (state S.Store conn.new) (h ∷ [])) }
    ensures refused { HasCleanDisk (state S.Store conn.new) → IsTrue (state S.Store conn.old).is_open → (h : Hall) → BecomeHall (state S.Store conn.old).now.trees h → IfErr result (λ e. e ≡ OpenFault.Unavailable) }
    ensures answered { HasCleanDisk (state S.Store conn.new) → IsRightMigration (state S.Store conn.old).now result }
    ensures no_hall { HasCleanDisk (state S.Store conn.new) → NamesNoSchema (state S.Store conn.old).now → (result ≡ Err OpenFault.NotAHall) ⊎ (result ≡ Err OpenFault.Unavailable) }
    ensures kept { HasCleanDisk (state S.Store conn.new) → result ≢ Ok Migrated.Now → KeepsTables (state S.Store conn.old) (state S.Store conn.new) }
    ensures crash { HasCleanDisk (state S.Store conn.new) → (h : Hall) → BecomeHall (state S.Store conn.old).now.trees h → MayLeaveBesides h (state S.Store conn.old) (state S.Store conn.new) }
{
    migrate(conn)
}

//! The table of machines: its rows, a new row, a row that changes while it still has its version, and a row that goes after its children.
ghost use Rattle.sql_schema.specs.{Words.{Blob, Text, state, HasCleanDisk, ExecutesInside, Survives, Shown, FailsToQuery, IsTooLate, bound, owned, Hall, at, status_number, machine_values, number, or_null, IsWithin, HallRows, machines}, Steps.{IsStep, IsWritten}, TableStatements.{with_item, without_item}};
ghost use Rattle.std.specs.Prelude.{◌≡◌, ◌⊎◌, ◌<◌, ◌≤◌, ◌^◌, length, take, IfOk, IfErr, IfSome, IsTrue, None};
ghost use Rattle.sql_items.specs.{MachineRows.{number_values, row_values}, MachineRowLaws.{same_number, same_row}, Machines.{HasNoChild, HasVersion, checked_values}};

use crate::columns::{
    boots_in, deadline_in, optional_name_in, optional_number_in, optional_status_in,
    optional_uuid_in, version_in,
};
use hall_types::{Machine, MachineUuid, Name, Number, Status, Version, arch_number};
use sql_schema::creating::ADD_MACHINE;
use sql_schema::{
    Table, kind_in, name_in, name_value, number_in, number_value, octets_value, small_value,
    truth_in, truth_value, write,
};
use sqlite::types::ValueRef;
use sqlite::{Alter, Error, Row, Transaction};

// The machine with a number goes.
const REMOVE_MACHINE: &str = "DELETE FROM machines WHERE id = ?1";

// A machine, changed where it still has a version.
const SET_MACHINE: &str =
    "UPDATE machines SET arch = ?2, uuid = ?3, pool = ?4, status = ?5, owner = ?6, image = ?7, tests = ?8, back = ?9, locked = ?10, version = ?11, deadline = ?12, boot = ?13, boots = ?14, waiting = ?15 WHERE id = ?1 AND version = ?16 RETURNING version";

/// The machine whose deadline comes first, at most at a moment.
pub(crate) const FIND_EXPIRED: &str =
    "SELECT id, arch, uuid, pool, status, owner, image, tests, back, locked, version, deadline, boot, boots, waiting FROM machines WHERE deadline <= ?1 ORDER BY deadline, id LIMIT 1";

/// The table of machines, by what it stores: it doesn't say how their disks are erased.
pub(crate) struct MachineRows;

impl Table for MachineRows {
    type Item = Machine;

    ghost values = { row_values };

    fn read(row: &Row) -> Result<Machine, Error> {
        if row.column_count() != 15 {
            return Err(Error::InvalidQuery);
        }
        Ok(Machine {
            id: number_in(row, 0)?,
            arch: kind_in(row, 1)?,
            uuid: optional_uuid_in(row, 2)?,
            pool: name_in(row, 3)?,
            status: kind_in(row, 4)?,
            owner: optional_name_in(row, 5)?,
            image: optional_name_in(row, 6)?,
            tests: truth_in(row, 7)?,
            back: optional_status_in(row, 8)?,
            erase: None,
            locked: truth_in(row, 9)?,
            version: version_in(row, 10)?,
            deadline: deadline_in(row, 11)?,
            boot: optional_number_in(row, 12)?,
            boots: boots_in(row, 13)?,
            waiting: optional_number_in(row, 14)?,
        })
    }

    ghost single = { same_row };
}

/// The table of machines, by their numbers alone.
pub(crate) struct MachineNumbers;

impl Table for MachineNumbers {
    type Item = Number;

    ghost values = { number_values };

    fn read(row: &Row) -> Result<Number, Error> {
        if row.column_count() != 1 {
            return Err(Error::InvalidQuery);
        }
        number_in(row, 0)
    }

    ghost single = { same_number };
}

fn optional_name(name: &Option<Name>) -> ValueRef<'_>
    ensures { owned result ≡ or_null Text name.now }
{
    name.as_ref()
        .map_or(ValueRef::Null, |name| name_value(name))
}

fn optional_number<'a>(id: Option<Number>) -> ValueRef<'a>
    ensures { owned result ≡ or_null number id }
{
    id.map_or(ValueRef::Null, |id| number_value(id.get()))
}

fn optional_status<'a>(status: Option<Status>) -> ValueRef<'a>
    ensures { owned result ≡ or_null (λ s. number (status_number s)) status }
{
    status.map_or(ValueRef::Null, |status| small_value(status.number()))
}

fn uuid_octets(uuid: Option<MachineUuid>) -> Option<[u8; 16]>
    ensures { result ≡ uuid }
{
    Some(uuid?.octets())
}

fn optional_octets(octets: &Option<[u8; 16]>) -> ValueRef<'_>
    ensures { owned result ≡ or_null Blob octets.now }
{
    octets
        .as_ref()
        .map_or(ValueRef::Null, |octets| octets_value(octets))
}

fn stored_deadline<'a>(deadline: Option<u64>) -> ValueRef<'a>
    requires { IfSome deadline (λ moment. moment < 2 ^ 63) }
    ensures { owned result ≡ or_null number deadline }
{
    match deadline {
        Some(moment) => number_value(moment),
        None => ValueRef::Null,
    }
}

// The values of a machine's row, and the version that it is to have before.
fn checked_params<'a>(
    machine: &'a Machine,
    was: Version,
    uuid: &'a Option<[u8; 16]>,
) -> [ValueRef<'a>; 16]
    requires range { IfSome machine.now.deadline (λ moment. moment < 2 ^ 63) }
    requires uuid { uuid.now ≡ machine.now.uuid }
    ensures { bound result ≡ checked_values machine.now was }
{
    [
        number_value(machine.id.get()),
        small_value(arch_number(machine.arch)),
        optional_octets(uuid),
        name_value(&machine.pool),
        small_value(machine.status.number()),
        optional_name(&machine.owner),
        optional_name(&machine.image),
        truth_value(machine.tests),
        optional_status(machine.back),
        truth_value(machine.locked),
        number_value(machine.version.get()),
        stored_deadline(machine.deadline),
        optional_number(machine.boot),
        small_value(machine.boots.get()),
        optional_number(machine.waiting),
        number_value(was.get()),
    ]
}

// The values of the row alone, of those with the version.
fn row_params<'b, 'a>(checked: &'b [ValueRef<'a>]) -> &'b [ValueRef<'a>]
    requires { 15 ≤ length checked.now }
    ensures { result.now ≡ take 15 checked.now }
{
    &checked[..15]
}

/// The row of a new machine; an error if it is there already. How its disks are erased is in a table of its own.
pub fn add_machine<S: Alter>(tx: &mut Transaction<'_, S>, machine: &Machine) -> Result<usize, Error>
    requires { IfSome machine.now.deadline (λ moment. moment < 2 ^ 63) }
    ensures same_reference { tx.new.conn.ghost_name ≡ tx.old.conn.ghost_name }
    ensures written { HasCleanDisk (state S.Store tx.new.conn.now) → IsStep (state S.Store tx.old.conn.now) (state S.Store tx.new.conn.now) result (λ _. (before : Hall) (c : HallRows) → IsWithin (state S.Store tx.old.conn.now) before c → IsWithin (state S.Store tx.new.conn.now) before (with_item machines c machine.now) × (at c.hall.machines machine.now.id ≡ None)) }
    ensures survives { Survives (state S.Store tx.old.conn.now) (state S.Store tx.new.conn.now) (λ _. ⊥) }
{
    let uuid = uuid_octets(machine.uuid);
    let params = checked_params(machine, machine.version, &uuid);
    tx.execute(ADD_MACHINE, row_params(&params))
}

/// A machine's row, changed if the machine is there and has the version `was`; an error if not. How its disks are erased
/// is in a table of its own.
pub fn set_machine<S: Alter>(
    tx: &mut Transaction<'_, S>,
    machine: &Machine,
    was: Version,
) -> Result<(), Error>
    requires { IfSome machine.now.deadline (λ moment. moment < 2 ^ 63) }
    ensures same_reference { tx.new.conn.ghost_name ≡ tx.old.conn.ghost_name }
    ensures written { HasCleanDisk (state S.Store tx.new.conn.now) → IsStep (state S.Store tx.old.conn.now) (state S.Store tx.new.conn.now) result (λ _. (before : Hall) (c : HallRows) → IsWithin (state S.Store tx.old.conn.now) before c → IsWithin (state S.Store tx.new.conn.now) before (with_item machines c machine.now) × HasVersion c machine.now.id was) }
    ensures survives { Survives (state S.Store tx.old.conn.now) (state S.Store tx.new.conn.now) (λ _. ⊥) }
{
    let uuid = uuid_octets(machine.uuid);
    let params = checked_params(machine, was, &uuid);
    match tx.query_all(SET_MACHINE, &params) {
        Ok(rows) => {
            if rows.len() == 1 {
                Ok(())
            } else {
                Err(Error::QueryReturnedNoRows)
            }
        }
        Err(error) => Err(error),
    }
}

/// The row of the machine with this number goes, after its interfaces, boots, orders and kind of erasing went.
pub fn remove_row<S: Alter>(tx: &mut Transaction<'_, S>, id: Number) -> Result<(), Error>
    ensures same_reference { tx.new.conn.ghost_name ≡ tx.old.conn.ghost_name }
    ensures written { HasCleanDisk (state S.Store tx.new.conn.now) → IsWritten (state S.Store tx.old.conn.now) (state S.Store tx.new.conn.now) result (λ c. HasNoChild c id) (λ c. without_item machines c id) }
    ensures survives { Survives (state S.Store tx.old.conn.now) (state S.Store tx.new.conn.now) (λ _. ⊥) }
{
    write(tx, REMOVE_MACHINE, &[number_value(id.get())])
}

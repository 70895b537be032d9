//! Where a machine is counted, and its count.
ghost use Rattle.sql_schema.specs.{Words.{option_to_list, state, HasCleanDisk, Survives, Hall, at, Machine, machine_values, IsWithin, HallRows}, Steps.IsStep};
ghost use Rattle.std.specs.Prelude.{◌≡◌, ◌⊎◌, IfOk, map, option_map, Option};
ghost use Rattle.hall_sql.specs.{Machines.{counted_in, counted_out, group_of}, Within.IsWithinHall};

use hall_types::{Machine, Name, Number, Status};
use sql_items::{count_down, count_up};
use sql_schema::creating::FIND_MACHINE;
use sql_schema::{kind_in, name_in, number_value};
use sqlite::{Alter, Error, Row, Transaction};

/// Where a machine is counted.
#[derive(Clone, Copy)]
pub(crate) struct Group {
    pub(crate) pool: Name,
    pub(crate) status: Status,
}

fn group_in(row: &Row) -> Result<Group, Error>
    ensures { IfOk result (λ group. (machine : Machine) → row.now ≡ machine_values machine → group ≡ group_of machine) }
{
    let pool = name_in(row, 3)?;
    let status = kind_in(row, 4)?;
    Ok(Group { pool, status })
}

fn first_group(rows: &Vec<Row>) -> Result<Option<Group>, Error>
    ensures { IfOk result (λ found. (machine : Option Machine) → rows.now.items ≡ map machine_values (option_to_list machine) → found ≡ option_map group_of machine) }
{
    match rows.first() {
        None => Ok(None),
        Some(row) => Ok(Some(group_in(row)?)),
    }
}

/// The group of the machine with this number, if there is one.
pub(crate) fn find_group<S: Alter>(
    tx: &mut Transaction<'_, S>,
    id: Number,
) -> Result<Option<Group>, Error>
    ensures same_reference { tx.new.conn.ghost_name ≡ tx.old.conn.ghost_name }
    ensures found { HasCleanDisk (state S.Store tx.new.conn.now) → IsStep (state S.Store tx.old.conn.now) (state S.Store tx.new.conn.now) result (λ group. (before h : Hall) → IsWithinHall (state S.Store tx.old.conn.now) before h → (group ≡ option_map group_of (at h.machines id)) × IsWithinHall (state S.Store tx.new.conn.now) before h) }
    ensures survives { Survives (state S.Store tx.old.conn.now) (state S.Store tx.new.conn.now) (λ _. ⊥) }
{
    match tx.query_all(FIND_MACHINE, &[number_value(id.get())]) {
        Ok(rows) => first_group(&rows),
        Err(error) => Err(error),
    }
}

/// A machine that was counted in a group is counted where it is now. Nothing is written if that is the same group.
pub(crate) fn move_count<S: Alter>(
    tx: &mut Transaction<'_, S>,
    from: &Group,
    machine: &Machine,
) -> Result<(), Error>
    ensures same_reference { tx.new.conn.ghost_name ≡ tx.old.conn.ghost_name }
    ensures written { HasCleanDisk (state S.Store tx.new.conn.now) → IsStep (state S.Store tx.old.conn.now) (state S.Store tx.new.conn.now) result (λ _. (before : Hall) (c : HallRows) → IsWithin (state S.Store tx.old.conn.now) before c → ((from.now ≡ group_of machine.now) × IsWithin (state S.Store tx.new.conn.now) before c) ⊎ IsWithin (state S.Store tx.new.conn.now) before (counted_in (counted_out c from.now) (group_of machine.now))) }
    ensures survives { Survives (state S.Store tx.old.conn.now) (state S.Store tx.new.conn.now) (λ _. ⊥) }
{
    if from.pool == machine.pool && from.status.number() == machine.status.number() {
        return Ok(());
    }
    count_down(tx, &from.pool, from.status)?;
    count_up(tx, &machine.pool, machine.status)
}

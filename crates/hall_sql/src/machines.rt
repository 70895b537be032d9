//! A machine's row, with its count and its kind of erasing: three tables, written in turn.
ghost use Rattle.sql_schema.specs.{Words.{state, HasCleanDisk, Survives, Hall, at}, Steps.IsStep};
ghost use Rattle.std.specs.Prelude.{◌≡◌, ◌<◌, ◌^◌, IfSome, OnOk, None, Some};
ghost use Rattle.hall_store.specs.Versions.{version_of};
ghost use Rattle.hall_sql.specs.{Machines.with_row, Within.IsWithinHall};

use crate::groups::{find_group, move_count};
use hall_types::{Machine, Version};
use sql_items::{add_machine, count_up, put_wipe, set_machine};
use sqlite::{Alter, Error, Transaction};

// The greatest number that a column has.
const MAX_COLUMN: u64 = 9_223_372_036_854_775_807;

fn check_deadline(machine: &Machine) -> Result<(), Error>
    ensures { OnOk result (IfSome machine.now.deadline (λ moment. moment < 2 ^ 63)) }
{
    match machine.deadline {
        Some(moment) if moment > MAX_COLUMN => Err(Error::IntegralValueOutOfRange(11)),
        _ => Ok(()),
    }
}

/// A machine that is new; an error if it is there already.
pub(crate) fn add_whole<S: Alter>(
    tx: &mut Transaction<'_, S>,
    machine: &Machine,
) -> Result<(), Error>
    ensures same_reference { tx.new.conn.ghost_name ≡ tx.old.conn.ghost_name }
    ensures written { HasCleanDisk (state S.Store tx.new.conn.now) → IsStep (state S.Store tx.old.conn.now) (state S.Store tx.new.conn.now) result (λ _. (before h : Hall) → IsWithinHall (state S.Store tx.old.conn.now) before h → IsWithinHall (state S.Store tx.new.conn.now) before (with_row h machine.now) × (at h.machines machine.now.id ≡ None)) }
    ensures survives { Survives (state S.Store tx.old.conn.now) (state S.Store tx.new.conn.now) (λ _. ⊥) }
{
    check_deadline(machine)?;
    add_machine(tx, machine)?;
    count_up(tx, &machine.pool, machine.status)?;
    put_wipe(tx, machine.id, machine.erase)
}

/// A machine that is there with the version `was`; an error if it isn't.
pub(crate) fn set_whole<S: Alter>(
    tx: &mut Transaction<'_, S>,
    machine: &Machine,
    was: Version,
) -> Result<(), Error>
    ensures same_reference { tx.new.conn.ghost_name ≡ tx.old.conn.ghost_name }
    ensures written { HasCleanDisk (state S.Store tx.new.conn.now) → IsStep (state S.Store tx.old.conn.now) (state S.Store tx.new.conn.now) result (λ _. (before h : Hall) → IsWithinHall (state S.Store tx.old.conn.now) before h → IsWithinHall (state S.Store tx.new.conn.now) before (with_row h machine.now) × (Some was ≡ version_of h machine.now.id)) }
    ensures survives { Survives (state S.Store tx.old.conn.now) (state S.Store tx.new.conn.now) (λ _. ⊥) }
{
    check_deadline(machine)?;
    let found = find_group(tx, machine.id)?;
    match found {
        Some(from) => {
            set_machine(tx, machine, was)?;
            move_count(tx, &from, machine)?;
            put_wipe(tx, machine.id, machine.erase)
        }
        None => Err(Error::QueryReturnedNoRows),
    }
}

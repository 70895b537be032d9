//! A machine that goes: its interfaces, boots, orders and kind of erasing first, then its row and its count.
ghost use Rattle.sql_schema.specs.{Words.{state, HasCleanDisk, Survives, Hall, without_machine}, Steps.{IsStep, IsWritten, always}};
ghost use Rattle.std.specs.Prelude.{◌≡◌};
ghost use Rattle.hall_sql.specs.{Machines.without_rows, Within.IsWithinHall};

use crate::groups::find_group;
use hall_types::Number;
use sql_items::{REMOVE_BOOTS, REMOVE_INTERFACES, REMOVE_ORDERS, count_down, put_wipe, remove_row};
use sql_schema::{number_value, write};
use sqlite::{Alter, Error, Transaction};

// All rows of a machine go: those that point to it and then its own, while it is still counted.
fn remove_rows<S: Alter>(tx: &mut Transaction<'_, S>, id: Number) -> Result<(), Error>
    ensures same_reference { tx.new.conn.ghost_name ≡ tx.old.conn.ghost_name }
    ensures written { HasCleanDisk (state S.Store tx.new.conn.now) → IsWritten (state S.Store tx.old.conn.now) (state S.Store tx.new.conn.now) result always (λ c. without_rows c id) }
    ensures survives { Survives (state S.Store tx.old.conn.now) (state S.Store tx.new.conn.now) (λ _. ⊥) }
{
    write(tx, REMOVE_INTERFACES, &[number_value(id.get())])?;
    write(tx, REMOVE_BOOTS, &[number_value(id.get())])?;
    write(tx, REMOVE_ORDERS, &[number_value(id.get())])?;
    put_wipe(tx, id, None)?;
    remove_row(tx, id)
}

/// A machine goes with its interfaces, boots and orders, if it is there.
pub(crate) fn remove_machine<S: Alter>(tx: &mut Transaction<'_, S>, id: Number) -> Result<(), Error>
    ensures same_reference { tx.new.conn.ghost_name ≡ tx.old.conn.ghost_name }
    ensures written { HasCleanDisk (state S.Store tx.new.conn.now) → IsStep (state S.Store tx.old.conn.now) (state S.Store tx.new.conn.now) result (λ _. (before h : Hall) → IsWithinHall (state S.Store tx.old.conn.now) before h → IsWithinHall (state S.Store tx.new.conn.now) before (without_machine id h)) }
    ensures survives { Survives (state S.Store tx.old.conn.now) (state S.Store tx.new.conn.now) (λ _. ⊥) }
{
    let group = find_group(tx, id)?;
    remove_rows(tx, id)?;
    match group {
        Some(group) => count_down(tx, &group.pool, group.status),
        None => Ok(()),
    }
}

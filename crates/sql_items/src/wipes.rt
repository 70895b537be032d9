//! The table of kinds of erasing: how the disks of a machine are erased, while they are to be.
ghost use Rattle.sql_schema.specs.{Words.{state, HasCleanDisk, Survives, IsTableRead, erase_by_number, same_kind}, Steps.{IsWritten, always}};
ghost use Rattle.std.{specs.Prelude.{◌≡◌, option_map}, proofs.Common.rules};
ghost use Rattle.sql_items.specs.Wipes.{erase_of, erasing_values, erasings, with_wipe};

use hall_types::{Erase, Number};
use sql_schema::creating::{ADD_WIPE, FIND_WIPE};
use sql_schema::{Table, ask_all, ask_one, kind_in, number_in, number_value, small_value, write};
use sqlite::{Alter, Connection, Error, Row, Transaction};
use std::alloc::Global;

// How the disks of all machines are erased.
const LIST_WIPES: &str = "SELECT machine, erase FROM wipes ORDER BY machine";

// The disks of the machine with a number are erased no more.
const REMOVE_WIPE: &str = "DELETE FROM wipes WHERE machine = ?1";

/// How the disks of a machine are erased.
#[derive(Clone, Copy)]
pub struct Erasing {
    pub machine: Number,
    pub erase: Erase,
}

/// The table of kinds of erasing, by what it stores.
pub struct Wipes;

impl Table for Wipes {
    type Item = Erasing;

    ghost values = { erasing_values };

    fn read(row: &Row) -> Result<Erasing, Error> {
        if row.column_count() != 2 {
            return Err(Error::InvalidQuery);
        }
        let machine = number_in(row, 0)?;
        let erase = kind_in(row, 1)?;
        Ok(Erasing { machine, erase })
    }

    ghost single = { Prim.search (rules, same_kind erase_by_number) };
}

/// How the disks of the machine with this number are erased, if they are to be.
pub fn find_wipe<S: Alter>(conn: &mut Connection<S>, id: Number) -> Result<Option<Erase>, Error>
    ensures clean { HasCleanDisk (state S.Store conn.new) → HasCleanDisk (state S.Store conn.old) }
    ensures asked { HasCleanDisk (state S.Store conn.new) → IsTableRead (state S.Store conn.old) (state S.Store conn.new) result (λ h erase. erase ≡ erase_of h id) }
{
    match ask_one::<Wipes, S>(conn, FIND_WIPE, &[number_value(id.get())]) {
        Ok(found) => Ok(found.map(|erasing| erasing.erase)),
        Err(error) => Err(error),
    }
}

/// The machines whose disks are to be erased, by number, and how. `alloc` is for the answer.
pub fn list_wipes<S: Alter>(conn: &mut Connection<S>, alloc: Global) -> Result<Vec<Erasing>, Error>
    ensures clean { HasCleanDisk (state S.Store conn.new) → HasCleanDisk (state S.Store conn.old) }
    ensures asked { HasCleanDisk (state S.Store conn.new) → IsTableRead (state S.Store conn.old) (state S.Store conn.new) result (λ h list. list.items ≡ erasings h) }
{
    ask_all::<Wipes, S>(conn, alloc, LIST_WIPES, &[])
}

/// How the disks of the machine with this number are to be erased from now on: not at all for `None`, which leaves no
/// row.
pub fn put_wipe<S: Alter>(
    tx: &mut Transaction<'_, S>,
    id: Number,
    erase: Option<Erase>,
) -> Result<(), Error>
    ensures same_reference { tx.new.conn.ghost_name ≡ tx.old.conn.ghost_name }
    ensures written { HasCleanDisk (state S.Store tx.new.conn.now) → IsWritten (state S.Store tx.old.conn.now) (state S.Store tx.new.conn.now) result always (λ c. with_wipe c id erase) }
    ensures survives { Survives (state S.Store tx.old.conn.now) (state S.Store tx.new.conn.now) (λ _. ⊥) }
{
    match write(tx, REMOVE_WIPE, &[number_value(id.get())]) {
        Ok(()) => {}
        Err(error) => return Err(error),
    }
    match erase {
        None => Ok(()),
        Some(erase) => write(
            tx,
            ADD_WIPE,
            &[number_value(id.get()), small_value(erase.number())],
        ),
    }
}

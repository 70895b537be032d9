//! All machines, each with the kind of erasing that has a table of its own.
ghost use Rattle.sql_schema.specs.Words.{state, HasCleanDisk, listed, IsTableRead};
ghost use Rattle.std.specs.Prelude.{◌≡◌, IfOk};
ghost use Rattle.sql_items.specs.{Joining.{joined, kind_at, past}, Wipes.erasings};

use crate::machines::MachineRows;
use crate::wipes::{Erasing, list_wipes};
use hall_types::{Erase, Machine, Number};
use sql_schema::ask_all;
use sql_schema::creating::LIST_MACHINES;
use sqlite::{Alter, Connection, Error};
use std::alloc::Global;

// The kind of erasing at this place, if it is this machine's, and the place of the next machine's.
fn kind_at(erasings: &[Erasing], at: usize, id: Number) -> (Option<Erase>, usize)
    ensures kind { result.0 ≡ kind_at erasings.now at id }
    ensures next { result.1 ≡ past at result.0 }
{
    match erasings.get(at) {
        Some(erasing) if erasing.machine == id => (Some(erasing.erase), at + 1),
        _ => (None, at),
    }
}

// Both lists are in the order of the machines' numbers.
fn joined(alloc: Global, rows: &[Machine], erasings: &[Erasing]) -> Result<Vec<Machine>, Error>
    ensures { IfOk result (λ all. all.items ≡ joined erasings.now 0 rows.now) }
{
    let mut all = Vec::new(alloc);
    let mut next = 0;
    'rows: for row in rows {
        let (erase, after) = kind_at(erasings, next, row.id);
        all.push(Machine { erase, ..*row })?;
        next = after;
    }
    Ok(all)
}

fn with_wipes<S: Alter>(
    conn: &mut Connection<S>,
    alloc: Global,
    rows: &Vec<Machine>,
) -> Result<Vec<Machine>, Error>
    ensures clean { HasCleanDisk (state S.Store conn.new) → HasCleanDisk (state S.Store conn.old) }
    ensures asked { HasCleanDisk (state S.Store conn.new) → IsTableRead (state S.Store conn.old) (state S.Store conn.new) result (λ h all. all.items ≡ joined (erasings h) 0 rows.now.items) }
{
    match list_wipes(conn, alloc) {
        Ok(erasings) => joined(alloc, rows, &erasings),
        Err(error) => Err(error),
    }
}

/// All machines, by number. `alloc` is for the answer.
pub fn list_machines<S: Alter>(
    conn: &mut Connection<S>,
    alloc: Global,
) -> Result<Vec<Machine>, Error>
    ensures clean { HasCleanDisk (state S.Store conn.new) → HasCleanDisk (state S.Store conn.old) }
    ensures asked { HasCleanDisk (state S.Store conn.new) → IsTableRead (state S.Store conn.old) (state S.Store conn.new) result (λ h machines. machines.items ≡ listed h.machines) }
{
    match ask_all::<MachineRows, S>(conn, alloc, LIST_MACHINES, &[]) {
        Ok(rows) => with_wipes(conn, alloc, &rows),
        Err(error) => Err(error),
    }
}

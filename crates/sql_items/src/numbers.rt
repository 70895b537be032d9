//! The table of the last numbers, which has one row.
ghost use Rattle.sql_schema.specs.{Words.{state, column, HasCleanDisk, Survives, number, IsTableRead}, Steps.{IsWritten, always}};
ghost use Rattle.std.specs.Prelude.{◌≡◌, IfOk, OnOk, length, [], ◌∷◌};
ghost use Rattle.sql_items.specs.Numbers.{schema_values, with_numbers};

use hall_types::{LastIssued, Numbers};
use sql_schema::creating::FIND_NUMBERS;
use sql_schema::{number_value, small_in, write};
use sqlite::{Alter, Connection, Error, Row, Transaction};

// The last numbers, changed.
const SET_NUMBERS: &str = "UPDATE hall SET machine = ?1, boot = ?2, orders = ?3 WHERE one = 1";

// The last number that was issued, in a column.
fn last_in(row: &Row, at: usize) -> Result<LastIssued, Error>
    ensures { IfOk result (λ last. column row.now at ≡ number last) }
{
    LastIssued::new(row.get(at)?).map_err(|_| Error::IntegralValueOutOfRange(at))
}

fn numbers_of(row: &Row) -> Result<Numbers, Error>
    ensures { IfOk result (λ numbers. row.now ≡ schema_values numbers) }
{
    if row.column_count() != 4 {
        return Err(Error::InvalidQuery);
    }
    if small_in(row, 0)? != 2 {
        return Err(Error::IntegralValueOutOfRange(0));
    }
    Ok(Numbers {
        machine: last_in(row, 1)?,
        boot: last_in(row, 2)?,
        order: last_in(row, 3)?,
    })
}

fn only_numbers(rows: &Vec<Row>) -> Result<Numbers, Error>
    ensures numbers { IfOk result (λ found. (last : _) → rows.now.items ≡ schema_values last ∷ [] → found ≡ last) }
    ensures one { OnOk result (length rows.now.items ≡ 1) }
{
    match rows.as_slice() {
        [row] => numbers_of(row),
        _ => Err(Error::QueryReturnedNoRows),
    }
}

/// The last numbers that were issued. A table with no row, with a second one, or with another schema is refused.
pub fn find_numbers<S: Alter>(conn: &mut Connection<S>) -> Result<Numbers, Error>
    ensures clean { HasCleanDisk (state S.Store conn.new) → HasCleanDisk (state S.Store conn.old) }
    ensures asked { HasCleanDisk (state S.Store conn.new) → IsTableRead (state S.Store conn.old) (state S.Store conn.new) result (λ h numbers. numbers ≡ h.last) }
{
    match conn.query_all(FIND_NUMBERS, &[]) {
        Ok(rows) => only_numbers(&rows),
        Err(error) => Err(error),
    }
}

/// The last numbers, in place of those before.
pub fn set_numbers<S: Alter>(tx: &mut Transaction<'_, S>, last: Numbers) -> Result<(), Error>
    ensures same_reference { tx.new.conn.ghost_name ≡ tx.old.conn.ghost_name }
    ensures written { HasCleanDisk (state S.Store tx.new.conn.now) → IsWritten (state S.Store tx.old.conn.now) (state S.Store tx.new.conn.now) result always (λ c. with_numbers c last) }
    ensures survives { Survives (state S.Store tx.old.conn.now) (state S.Store tx.new.conn.now) (λ _. ⊥) }
{
    write(
        tx,
        SET_NUMBERS,
        &[
            number_value(last.machine.get()),
            number_value(last.boot.get()),
            number_value(last.order.get()),
        ],
    )
}

//! The table of counts: how many machines each pool has in each status, changed by one and listed.
ghost use Rattle.sql_schema.specs.{Words.{state, HasCleanDisk, Survives, Hall, status_number, number, IsTableRead, IsWithin, HallRows, in_rows}, Steps.{IsStep, IsWritten, always}};
ghost use Rattle.std.specs.Prelude.{◌≡◌, ◌<◌, ◌+◌, ◌-◌, ◌^◌, ℕ, IfOk, map, [], ◌∷◌};
ghost use Rattle.hall_store.specs.Counts.{AreCounts};
ghost use Rattle.sql_items.specs.Counts.{count_values, text_from, with_count};

use hall_store::Count;
use hall_types::{Name, Status};
use sql_schema::creating::{ADD_COUNT, LIST_COUNTS};
use sql_schema::{kind_in, name_in, name_value, number_value, small_value, write};
use sqlite::{Alter, Connection, Error, Row, Transaction, params};
use std::alloc::Global;

// The count of a pool and a status.
const FIND_COUNT: &str =
    "SELECT machines FROM counts WHERE pool = ?1 AND status = ?2 ORDER BY pool, status";

// The count of a pool and a status goes.
const REMOVE_COUNT: &str = "DELETE FROM counts WHERE pool = ?1 AND status = ?2";

// The count of a pool and a status, changed.
const SET_COUNT: &str = "UPDATE counts SET machines = ?3 WHERE pool = ?1 AND status = ?2";

// The greatest number that a column has.
const MAX_COUNT: u64 = 9_223_372_036_854_775_807;

// The count that a query shows, 0 if it shows none.
fn count_in(rows: &Vec<Row>) -> Result<u64, Error>
    ensures count { IfOk result (λ n. (k : ℕ) → rows.now.items ≡ map (λ n. number n ∷ []) (in_rows k) → n ≡ k) }
    ensures range { IfOk result (λ n. n < 2 ^ 63) }
{
    match rows.first() {
        None => Ok(0),
        Some(row) => {
            let count: u64 = row.get(0)?;
            if count > MAX_COUNT {
                return Err(Error::IntegralValueOutOfRange(0));
            }
            Ok(count)
        }
    }
}

// How many machines are counted.
fn count_of<S: Alter>(
    tx: &mut Transaction<'_, S>,
    pool: &Name,
    status: Status,
) -> Result<u64, Error>
    ensures same_reference { tx.new.conn.ghost_name ≡ tx.old.conn.ghost_name }
    ensures counted { HasCleanDisk (state S.Store tx.new.conn.now) → IsStep (state S.Store tx.old.conn.now) (state S.Store tx.new.conn.now) result (λ n. (before : Hall) (c : HallRows) → IsWithin (state S.Store tx.old.conn.now) before c → (n ≡ c.counts pool.now (status_number status)) × IsWithin (state S.Store tx.new.conn.now) before c) }
    ensures range { IfOk result (λ n. n < 2 ^ 63) }
    ensures survives { Survives (state S.Store tx.old.conn.now) (state S.Store tx.new.conn.now) (λ _. ⊥) }
{
    match tx.query_all(
        FIND_COUNT,
        &[name_value(pool), small_value(status.number())],
    ) {
        Ok(rows) => count_in(&rows),
        Err(error) => Err(error),
    }
}

// Which statement makes a count another one: 0 has no row.
fn statement_from(was: u64) -> &'static str
    ensures { result.now ≡ text_from was }
{
    if was == 0 { ADD_COUNT } else { SET_COUNT }
}

// A pool and a status have this count, in place of the one that they had.
fn put_count<S: Alter>(
    tx: &mut Transaction<'_, S>,
    pool: &Name,
    status: Status,
    was: u64,
    count: u64,
) -> Result<(), Error>
    requires { count < 2 ^ 63 }
    ensures same_reference { tx.new.conn.ghost_name ≡ tx.old.conn.ghost_name }
    ensures written { HasCleanDisk (state S.Store tx.new.conn.now) → IsWritten (state S.Store tx.old.conn.now) (state S.Store tx.new.conn.now) result (λ c. was ≡ c.counts pool.now (status_number status)) (λ c. with_count c pool.now (status_number status) count) }
    ensures survives { Survives (state S.Store tx.old.conn.now) (state S.Store tx.new.conn.now) (λ _. ⊥) }
{
    let pool = name_value(pool);
    let status = small_value(status.number());
    if count == 0 {
        write(tx, REMOVE_COUNT, &[pool, status])
    } else {
        write(
            tx,
            statement_from(was),
            &[pool, status, number_value(count)],
        )
    }
}

/// One machine more in a pool and a status.
pub fn count_up<S: Alter>(
    tx: &mut Transaction<'_, S>,
    pool: &Name,
    status: Status,
) -> Result<(), Error>
    ensures same_reference { tx.new.conn.ghost_name ≡ tx.old.conn.ghost_name }
    ensures written { HasCleanDisk (state S.Store tx.new.conn.now) → IsWritten (state S.Store tx.old.conn.now) (state S.Store tx.new.conn.now) result always (λ c. with_count c pool.now (status_number status) (c.counts pool.now (status_number status) + 1)) }
    ensures survives { Survives (state S.Store tx.old.conn.now) (state S.Store tx.new.conn.now) (λ _. ⊥) }
{
    match count_of(tx, pool, status) {
        Ok(MAX_COUNT) => Err(Error::IntegralValueOutOfRange(0)),
        Ok(count) => put_count(tx, pool, status, count, count + 1),
        Err(error) => Err(error),
    }
}

/// One machine fewer in a pool and a status. Where none is counted, it is refused.
pub fn count_down<S: Alter>(
    tx: &mut Transaction<'_, S>,
    pool: &Name,
    status: Status,
) -> Result<(), Error>
    ensures same_reference { tx.new.conn.ghost_name ≡ tx.old.conn.ghost_name }
    ensures written { HasCleanDisk (state S.Store tx.new.conn.now) → IsStep (state S.Store tx.old.conn.now) (state S.Store tx.new.conn.now) result (λ _. (before : Hall) (c : HallRows) → IsWithin (state S.Store tx.old.conn.now) before c → IsWithin (state S.Store tx.new.conn.now) before (with_count c pool.now (status_number status) (c.counts pool.now (status_number status) - 1)) × (0 < c.counts pool.now (status_number status))) }
    ensures survives { Survives (state S.Store tx.old.conn.now) (state S.Store tx.new.conn.now) (λ _. ⊥) }
{
    match count_of(tx, pool, status) {
        Ok(0) => Err(Error::IntegralValueOutOfRange(0)),
        Ok(count) => put_count(tx, pool, status, count, count - 1),
        Err(error) => Err(error),
    }
}

fn count_in_row(row: &Row) -> Result<Count, Error>
    ensures { IfOk result (λ count. row.now ≡ count_values count) }
{
    if row.column_count() != 3 {
        return Err(Error::InvalidQuery);
    }
    Ok(Count {
        pool: name_in(row, 0)?,
        status: kind_in(row, 1)?,
        machines: row.get(2)?,
    })
}

fn counts_in(alloc: Global, rows: &[Row]) -> Result<Vec<Count>, Error>
    ensures { IfOk result (λ counts. rows.now ≡ map count_values counts.items) }
{
    let mut counts = Vec::with_capacity(alloc, rows.len())?;
    for row in rows {
        counts.push(count_in_row(row)?)?;
    }
    Ok(counts)
}

/// How many machines each pool has in each status, by the pool's name and the status's number, without those of
/// which there are none. `alloc` is for the answer.
pub fn list_counts<S: Alter>(alloc: Global, conn: &mut Connection<S>) -> Result<Vec<Count>, Error>
    ensures clean { HasCleanDisk (state S.Store conn.new) → HasCleanDisk (state S.Store conn.old) }
    ensures asked { HasCleanDisk (state S.Store conn.new) → IsTableRead (state S.Store conn.old) (state S.Store conn.new) result (λ h counts. AreCounts h counts.items) }
{
    match conn.query_all(LIST_COUNTS, params![]) {
        Ok(rows) => counts_in(alloc, &rows),
        Err(error) => Err(error),
    }
}

//! Writes of rows inside a transaction.
ghost use Rattle.sql_schema.specs.{Words.{state, bound, HasCleanDisk, Survives, Hall, IsWithin, HallRows}, Steps.{IsStep, IsWritten, always}, Writing.{Makes, Puts}};
ghost use Rattle.std.specs.Prelude.{◌≡◌, MatchBool, List, ℕ};

use sqlite::types::ValueRef;
use sqlite::{Alter, Error, Transaction};

/// A statement that writes rows, with its parameters: what it makes of the rows is made.
pub fn write<S: Alter>(
    tx: &mut Transaction<'_, S>,
    sql: &str,
    params: &[ValueRef<'_>],
) -> Result<(), Error>
    ensures same_reference { tx.new.conn.ghost_name ≡ tx.old.conn.ghost_name }
    ensures written { HasCleanDisk (state S.Store tx.new.conn.now) → IsStep (state S.Store tx.old.conn.now) (state S.Store tx.new.conn.now) result (λ _. (before : Hall) (was now : HallRows) → Makes (state S.Store) sql.now (bound params.now) before was now → IsWithin (state S.Store tx.old.conn.now) before was → IsWithin (state S.Store tx.new.conn.now) before now) }
    ensures survives { Survives (state S.Store tx.old.conn.now) (state S.Store tx.new.conn.now) (λ _. ⊥) }
{
    match tx.execute(sql, params) {
        Ok(_) => Ok(()),
        Err(error) => Err(error),
    }
}

// A row that is there is changed. Answers whether it is there: then the statement has shown it.
fn set_row<S: Alter>(
    tx: &mut Transaction<'_, S>,
    set: &str,
    values: &[ValueRef<'_>],
) -> Result<bool, Error>
    ensures same_reference { tx.new.conn.ghost_name ≡ tx.old.conn.ghost_name }
    ensures written { HasCleanDisk (state S.Store tx.new.conn.now) → (add : List ℕ) (makes : HallRows → HallRows) → Puts (state S.Store) set.now add (bound values.now) makes → IsStep (state S.Store tx.old.conn.now) (state S.Store tx.new.conn.now) result (λ there. (before : Hall) (c : HallRows) → IsWithin (state S.Store tx.old.conn.now) before c → MatchBool there (IsWithin (state S.Store tx.new.conn.now) before (makes c)) (IsWithin (state S.Store tx.new.conn.now) before c × Makes (state S.Store) add (bound values.now) before c (makes c))) }
    ensures survives { Survives (state S.Store tx.old.conn.now) (state S.Store tx.new.conn.now) (λ _. ⊥) }
{
    match tx.query_all(set, values) {
        Ok(rows) => Ok(rows.len() == 1),
        Err(error) => Err(error),
    }
}

/// A row with these values, new or in place of the one that has its key: `set` changes it and shows it if it is there, `add` adds it.
pub fn put<S: Alter>(
    tx: &mut Transaction<'_, S>,
    set: &str,
    add: &str,
    values: &[ValueRef<'_>],
) -> Result<(), Error>
    ensures same_reference { tx.new.conn.ghost_name ≡ tx.old.conn.ghost_name }
    ensures written { HasCleanDisk (state S.Store tx.new.conn.now) → (makes : HallRows → HallRows) → Puts (state S.Store) set.now add.now (bound values.now) makes → IsWritten (state S.Store tx.old.conn.now) (state S.Store tx.new.conn.now) result always makes }
    ensures survives { Survives (state S.Store tx.old.conn.now) (state S.Store tx.new.conn.now) (λ _. ⊥) }
{
    match set_row(tx, set, values) {
        Ok(true) => Ok(()),
        Ok(false) => write(tx, add, values),
        Err(error) => Err(error),
    }
}

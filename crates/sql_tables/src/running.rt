//! Statements inside a transaction, and how it ends.
ghost use Rattle.sql_schema.specs.{Words.{state, HasCleanDisk, Shown, Survives, bound}, Steps.IsStep};
ghost use Rattle.std.specs.Prelude.{◌≡◌, [], IfErr, Ok};
ghost use Rattle.sql_tables.specs.Running.{IsEnded, IsRun};

use sqlite::types::ValueRef;
use sqlite::{Alter, Error, Row, Transaction};

/// A statement that writes.
pub(crate) fn run<S: Alter>(
    tx: &mut Transaction<'_, S>,
    sql: &str,
    params: &[ValueRef<'_>],
) -> Result<(), Error>
    ensures same_reference { tx.new.conn.ghost_name ≡ tx.old.conn.ghost_name }
    ensures ran { HasCleanDisk (state S.Store tx.new.conn.now) → IsStep (state S.Store tx.old.conn.now) (state S.Store tx.new.conn.now) result (λ _. IsRun sql.now (bound params.now) (state S.Store tx.old.conn.now) (state S.Store tx.new.conn.now)) }
    ensures survives { Survives (state S.Store tx.old.conn.now) (state S.Store tx.new.conn.now) (λ _. ⊥) }
{
    match tx.execute(sql, params) {
        Ok(_) => Ok(()),
        Err(error) => Err(error),
    }
}

/// The rows that a query shows.
pub(crate) fn ask<S: Alter>(tx: &mut Transaction<'_, S>, sql: &str) -> Result<Vec<Row>, Error>
    ensures same_reference { tx.new.conn.ghost_name ≡ tx.old.conn.ghost_name }
    ensures asked { HasCleanDisk (state S.Store tx.new.conn.now) → IsStep (state S.Store tx.old.conn.now) (state S.Store tx.new.conn.now) result (λ rows. Shown sql.now [] (state S.Store tx.old.conn.now) (state S.Store tx.new.conn.now) rows.items) }
    ensures survives { Survives (state S.Store tx.old.conn.now) (state S.Store tx.new.conn.now) (λ _. ⊥) }
{
    tx.query_all(sql, &[])
}

/// The transaction ends: it is committed where all of it was done, and else undone. A failure is answered as this fault.
pub(crate) fn end<S: Alter, F: Copy>(
    tx: Transaction<'_, S>,
    done: Result<(), Error>,
    fault: F,
) -> Result<(), F>
    ensures ended { HasCleanDisk (state S.Store tx.exit.0.now) → IsEnded (state S.Store tx.entry.conn.now) (state S.Store tx.exit.0.now) done result }
    ensures fault { IfErr result (λ e. e ≡ fault) }
    ensures survives { Survives (state S.Store tx.entry.conn.now) (state S.Store tx.exit.0.now) (λ db. (done ≡ Ok tt) × (db ≡ (state S.Store tx.entry.conn.now).now.trees)) }
{
    match done {
        Ok(()) => match tx.commit() {
            Ok(()) => Ok(()),
            Err(_) => Err(fault),
        },
        Err(_) => {
            tx.rollback();
            Err(fault)
        }
    }
}

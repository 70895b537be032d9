//! The indexes of a hall, which its file may lack. Without them a machine that goes costs a walk over whole tables.
ghost use Rattle.sql_schema.specs.{Words.{state, HasCleanDisk, Survives}, Steps.IsStep};
ghost use Rattle.sqlite_schema.specs.Names.{index_named};
ghost use Rattle.sql_tables.specs.Indexes.{all_indexes, indexes_of};
ghost use Rattle.std.specs.Prelude.{◌≡◌, is_some, true};

use crate::running::run;
use sql_schema::creating::{INDEX_BOOTS, INDEX_INTERFACES, INDEX_ORDERS};
use sqlite::{Alter, Error, Transaction};
use sqlite_schema::schema::Schema;

/// Which of a hall's indexes there are.
#[derive(Clone, Copy)]
pub(crate) struct Indexes {
    interfaces: bool,
    boots: bool,
    orders: bool,
}

fn has_index(schema: &Schema, name: &str) -> bool
    ensures { result ≡ is_some (index_named schema.now name.now) }
{
    schema.index_named(name.as_bytes()).is_some()
}

impl Indexes {
    /// Those of a schema, by their names.
    pub(crate) fn of(schema: &Schema) -> Indexes
        ensures { result ≡ indexes_of schema.now }
    {
        Indexes {
            interfaces: has_index(schema, "interfaces_machine"),
            boots: has_index(schema, "boots_machine"),
            orders: has_index(schema, "orders_machine"),
        }
    }
}

// An index is made, if it isn't there.
fn make_index<S: Alter>(
    tx: &mut Transaction<'_, S>,
    is_there: bool,
    text: &str,
) -> Result<(), Error>
    ensures same_reference { tx.new.conn.ghost_name ≡ tx.old.conn.ghost_name }
    ensures step { HasCleanDisk (state S.Store tx.new.conn.now) → IsStep (state S.Store tx.old.conn.now) (state S.Store tx.new.conn.now) result (λ _. is_there ≡ true → (state S.Store tx.new.conn.now).now ≡ (state S.Store tx.old.conn.now).now) }
    ensures survives { Survives (state S.Store tx.old.conn.now) (state S.Store tx.new.conn.now) (λ _. ⊥) }
{
    if is_there { Ok(()) } else { run(tx, text, &[]) }
}

/// Those that are missing are made.
pub(crate) fn make_missing<S: Alter>(
    tx: &mut Transaction<'_, S>,
    there: Indexes,
) -> Result<(), Error>
    ensures same_reference { tx.new.conn.ghost_name ≡ tx.old.conn.ghost_name }
    ensures step { HasCleanDisk (state S.Store tx.new.conn.now) → IsStep (state S.Store tx.old.conn.now) (state S.Store tx.new.conn.now) result (λ _. there ≡ all_indexes → (state S.Store tx.new.conn.now).now ≡ (state S.Store tx.old.conn.now).now) }
    ensures survives { Survives (state S.Store tx.old.conn.now) (state S.Store tx.new.conn.now) (λ _. ⊥) }
{
    make_index(tx, there.interfaces, INDEX_INTERFACES)?;
    make_index(tx, there.boots, INDEX_BOOTS)?;
    make_index(tx, there.orders, INDEX_ORDERS)
}

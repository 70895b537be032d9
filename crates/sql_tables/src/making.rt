//! The statements that make a new hall, inside a transaction.
ghost use Rattle.sql_schema.specs.{Words.{state, Schema, HasCleanDisk, Survives, new_hall, second, hall_schema, no_schema, Spells}, Steps.IsStep};
ghost use Rattle.std.specs.Prelude.{◌≡◌, map};
ghost use Rattle.sql_tables.specs.Creating.{CanMake, HasNoRows, without_kinds};

use crate::running::run;
use hall_types::{Digest, Name, Role};
use sql_schema::creating::{ADD_OPERATOR, ADD_POOL, CREATE_ALL, FIRST_NUMBERS};
use sqlite::{Alter, Error, Transaction, params};

// Tables and indexes are made by their texts, one after another.
fn make_all<S: Alter>(tx: &mut Transaction<'_, S>, texts: &[&str]) -> Result<(), Error>
    ensures same_reference { tx.new.conn.ghost_name ≡ tx.old.conn.ghost_name }
    ensures made { HasCleanDisk (state S.Store tx.new.conn.now) → IsStep (state S.Store tx.old.conn.now) (state S.Store tx.new.conn.now) result (λ _. (after : Schema) → CanMake (state S.Store tx.old.conn.now).now (map (λ text. text.now) texts.now) after → HasNoRows (state S.Store tx.new.conn.now).now after) }
    ensures survives { Survives (state S.Store tx.old.conn.now) (state S.Store tx.new.conn.now) (λ _. ⊥) }
{
    for text in texts {
        run(tx, text, &[])?;
    }
    Ok(())
}

// The rows that every new hall has.
fn put_first_rows<S: Alter>(
    tx: &mut Transaction<'_, S>,
    admin: Name,
    digest: Digest,
) -> Result<(), Error>
    ensures same_reference { tx.new.conn.ghost_name ≡ tx.old.conn.ghost_name }
    ensures made { HasCleanDisk (state S.Store tx.new.conn.now) → IsStep (state S.Store tx.old.conn.now) (state S.Store tx.new.conn.now) result (λ _. HasNoRows (state S.Store tx.old.conn.now).now hall_schema → Spells (state S.Store tx.new.conn.now).now (without_kinds (new_hall second admin digest))) }
    ensures survives { Survives (state S.Store tx.old.conn.now) (state S.Store tx.new.conn.now) (λ _. ⊥) }
{
    run(tx, FIRST_NUMBERS, &[])?;
    run(tx, ADD_POOL, params!["default"])?;
    let octets = digest.octets();
    run(
        tx,
        ADD_OPERATOR,
        params![
            admin.text(),
            u32::from(Role::Admin.number()),
            octets.as_slice(),
            true
        ],
    )
}

/// The tables of a new hall with this admin, where no table is.
pub(crate) fn make_hall<S: Alter>(
    tx: &mut Transaction<'_, S>,
    admin: Name,
    digest: Digest,
) -> Result<(), Error>
    ensures same_reference { tx.new.conn.ghost_name ≡ tx.old.conn.ghost_name }
    ensures made { HasCleanDisk (state S.Store tx.new.conn.now) → IsStep (state S.Store tx.old.conn.now) (state S.Store tx.new.conn.now) result (λ _. (state S.Store tx.old.conn.now).now.schema ≡ no_schema → Spells (state S.Store tx.new.conn.now).now (without_kinds (new_hall second admin digest))) }
    ensures survives { Survives (state S.Store tx.old.conn.now) (state S.Store tx.new.conn.now) (λ _. ⊥) }
{
    make_all(tx, CREATE_ALL)?;
    put_first_rows(tx, admin, digest)
}

//! A new hall is made.
ghost use Rattle.sql_schema.specs.Words.{list_any, is_used, state, HasCleanDisk, new_hall, second, IsHeld, Leaves};
ghost use Rattle.std.specs.Prelude.{◌≡◌, ◌↔◌, IfErr, IsTrue, OnOk, OnErr, Err, false, [], ◌∷◌};
ghost use Rattle.sql_tables.specs.Creating.{IsBlank, IsFlat, IsMade, IsWhole, KeepsTables, MayLeaveBesides, is_a_name_taken};

use crate::fault::CreateFault;
use crate::making::make_hall;
use crate::running::end;
use hall_types::{Digest, Name};
use sqlite::{Alter, Connection};
use sqlite_schema::schema::Schema;

/// Whether a table, an index or a view has this name.
pub(crate) fn is_used(schema: &Schema, name: &str) -> bool
    ensures { result ≡ is_used schema.now name.now }
{
    let name = name.as_bytes();
    schema.table_named(name).is_some()
        || schema.index_named(name).is_some()
        || schema.view_named(name).is_some()
}

fn is_any_used(schema: &Schema, names: &[&str]) -> bool
    ensures { result ≡ list_any (λ name. is_used schema.now name.now) names.now }
{
    names.iter().any(|name| is_used(schema, name))
}

// Whether the name of one of a hall's tables is taken.
fn is_a_name_taken(schema: &Schema) -> bool
    ensures { result ≡ is_a_name_taken schema.now }
{
    is_any_used(
        schema,
        &[
            "hall",
            "operators",
            "pools",
            "members",
            "images",
            "lives",
            "machines",
            "interfaces",
            "boots",
            "orders",
            "receipts",
            "counts",
            "wipes",
        ],
    )
}

// The tables are made in one transaction.
fn make_in<S: Alter>(
    conn: &mut Connection<S>,
    admin: Name,
    digest: Digest,
) -> Result<(), CreateFault>
    requires autocommit { (state S.Store conn.old).in_transaction ≡ false }
    ensures clean { HasCleanDisk (state S.Store conn.new) → HasCleanDisk (state S.Store conn.old) }
    ensures made { HasCleanDisk (state S.Store conn.new) → IsBlank (state S.Store conn.old) → IsMade (state S.Store conn.old) (state S.Store conn.new) result (new_hall second admin digest) }
    ensures whole { HasCleanDisk (state S.Store conn.new) → IsWhole (state S.Store conn.old) (state S.Store conn.new) result }
    ensures fault { IfErr result (λ e. e ≡ CreateFault.Unavailable) }
    ensures refused { HasCleanDisk (state S.Store conn.new) → IsFlat (state S.Store conn.old) → OnErr result (KeepsTables (state S.Store conn.old) (state S.Store conn.new)) }
{
    let mut tx = conn.transaction();
    let done = make_hall(&mut tx, admin, digest);
    end(tx, done, CreateFault::Unavailable)
}

/// Makes the tables of a new hall in one transaction, beside what the file has, with this enabled admin and this digest of its token: all of
/// them or none. `NotEmpty` where a table, an index or a view has the name of one of a hall's tables. A refusal leaves the tables as they
/// were. Which hall they are is said of a file that had no table, since the definition of a hall's file has each table at its place.
pub fn create_tables<S: Alter>(
    conn: &mut Connection<S>,
    admin: Name,
    digest: Digest,
) -> Result<(), CreateFault>
    ensures clean { HasCleanDisk (state S.Store conn.new) → HasCleanDisk (state S.Store conn.old) }
    ensures made { HasCleanDisk (state S.Store conn.new) → IsBlank (state S.Store conn.old) → OnOk result (IsHeld (state S.Store conn.new) (new_hall second admin digest)) }
    ensures settled { HasCleanDisk (state S.Store conn.new) → IsBlank (state S.Store conn.old) → OnOk result (Leaves (state S.Store conn.new) (new_hall second admin digest ∷ [])) }
    ensures taken { (result ≡ Err CreateFault.NotEmpty) ↔ IsTrue (is_a_name_taken (state S.Store conn.old).now.schema) }
    ensures refused { HasCleanDisk (state S.Store conn.new) → OnErr result (KeepsTables (state S.Store conn.old) (state S.Store conn.new)) }
    ensures crash { HasCleanDisk (state S.Store conn.new) → IsBlank (state S.Store conn.old) → MayLeaveBesides (new_hall second admin digest) (state S.Store conn.old) (state S.Store conn.new) }
    ensures whole { HasCleanDisk (state S.Store conn.new) → IsWhole (state S.Store conn.old) (state S.Store conn.new) result }
{
    if is_a_name_taken(conn.schema()) {
        return Err(CreateFault::NotEmpty);
    }
    if !conn.is_autocommit() {
        return Err(CreateFault::Unavailable);
    }
    make_in(conn, admin, digest)
}

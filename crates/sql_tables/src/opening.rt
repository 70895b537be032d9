//! A file's tables are looked at before its hall is used.
ghost use Rattle.sql_schema.specs.Words.{state, HasCleanDisk, IsLive, Survives, Hall, IsHeld, Leaves, SpellHall};
ghost use Rattle.std.specs.Prelude.{◌≡◌, ◌⊎◌, Err, IfErr, IsTrue, OnOk, [], ◌∷◌};
ghost use Rattle.sql_tables.specs.{Creating.KeepsTables, Opening.{IfSaid, IsAnswerFor, IsReady, IsRightAnswer, NamesNoSchema}};

use crate::fault::OpenFault;
use crate::looking::{Wanted, look};
use sql_schema::is_running;
use sqlite::{Alter, Connection};

/// Whether the tables are those of a hall of this schema, looked at in a transaction that is undone. Unless that can't be
/// said, the connection is open.
pub(crate) fn look_for<S: Alter>(conn: &mut Connection<S>, wanted: Wanted) -> Result<(), OpenFault>
    ensures live { IsLive (state S.Store conn.old) }
    ensures ready { HasCleanDisk (state S.Store conn.new) → IfSaid result (IsReady (state S.Store conn.old) (state S.Store conn.new)) }
    ensures answered { HasCleanDisk (state S.Store conn.new) → IsAnswerFor wanted (state S.Store conn.old).now result }
    ensures kept { HasCleanDisk (state S.Store conn.new) → KeepsTables (state S.Store conn.old) (state S.Store conn.new) }
    ensures survives { Survives (state S.Store conn.old) (state S.Store conn.new) (λ _. ⊥) }
{
    // Its contract says that the tables obey their schema (`live`).
    let _ = conn.schema();
    if !conn.is_autocommit() {
        return Err(OpenFault::Unavailable);
    }
    let mut tx = conn.transaction();
    let found = look(&mut tx, wanted);
    tx.rollback();
    if is_running(conn) {
        found
    } else {
        Err(OpenFault::Unavailable)
    }
}

/// Whether the tables of a file are those of a hall of the second schema. It asks for the table `hall` and its one row,
/// then for the number of the schema, then for each other table, always with its columns, and for nothing else: without
/// its indexes a hall is as good, only slower. At `Ok` the connection holds the hall that the tables spell; a refusal leaves
/// the tables as they were, and nothing is ever written.
pub fn look_at_tables<S: Alter>(conn: &mut Connection<S>) -> Result<(), OpenFault>
    ensures clean { HasCleanDisk (state S.Store conn.new) → HasCleanDisk (state S.Store conn.old) }
    ensures held { HasCleanDisk (state S.Store conn.new) → OnOk result ((h : Hall) → SpellHall (state S.Store conn.old).now.trees h → IsHeld (state S.Store conn.new) h) }
    ensures running { HasCleanDisk (state S.Store conn.new) → OnOk result (IsTrue (state S.Store conn.new).is_open) }
    ensures settled { HasCleanDisk (state S.Store conn.new) → OnOk result ((h : Hall) → SpellHall (state S.Store conn.old).now.trees h → Leaves (state S.Store conn.new) (h ∷ [])) }
    ensures refused { HasCleanDisk (state S.Store conn.new) → IsTrue (state S.Store conn.old).is_open → (h : Hall) → SpellHall (state S.Store conn.old).now.trees h → IfErr result (λ e. e ≡ OpenFault.Unavailable) }
    ensures answered { HasCleanDisk (state S.Store conn.new) → IsRightAnswer (state S.Store conn.old).now result }
    ensures no_hall { HasCleanDisk (state S.Store conn.new) → NamesNoSchema (state S.Store conn.old).now → (result ≡ Err OpenFault.NotAHall) ⊎ (result ≡ Err OpenFault.Unavailable) }
    ensures kept { HasCleanDisk (state S.Store conn.new) → KeepsTables (state S.Store conn.old) (state S.Store conn.new) }
    ensures survives { Survives (state S.Store conn.old) (state S.Store conn.new) (λ _. ⊥) }
{
    look_for(conn, Wanted::Second)
}

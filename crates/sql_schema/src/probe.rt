//! Whether a connection still answers.
ghost use Rattle.sql_schema.specs.{Prelude.{state, HasCleanDisk, IsUnchanged, Survives}, Statements.IsBack};
ghost use Rattle.std.specs.Prelude.{◌⊎◌, IsTrue};

use sqlite::{Alter, Connection};

/// Whether the connection is open, found out by a statement that reads no table. It commits nothing, whatever the
/// tables are; where it's answered, the connection is as it was, and where it isn't, a transaction may be undone.
pub fn is_running<S: Alter>(conn: &mut Connection<S>) -> bool
    ensures same { HasCleanDisk (state S.Store conn.new) → IsTrue result → IsUnchanged (state S.Store conn.old) (state S.Store conn.new) }
    ensures back { HasCleanDisk (state S.Store conn.new) → IsBack (state S.Store conn.old) (state S.Store conn.new) }
    ensures survives { Survives (state S.Store conn.old) (state S.Store conn.new) (λ _. ⊥) }
{
    match conn.prepare("SELECT 1") {
        Ok(_) => true,
        Err(_) => false,
    }
}

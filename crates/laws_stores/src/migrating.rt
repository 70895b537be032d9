//! A hall of the first schema that is carried over: its history goes on.
ghost use Rattle.std.specs.Prelude.{◌⊎◌, ℕ, List, [], IfOk};
ghost use Rattle.laws_stores.specs.{Prelude.{state, HasCleanDisk, Trees, Hall, first, new_hall, IsFirstRun, carried_over, IsMigrated, Step, Headline, connection_after, SpellHall, SpellFirst}, Migrating.GoesOn};

use hall_desk::histories_keep_the_laws;
use hall_sql::{Refused, SqlStore};
use hall_store::HallStore;
use sql_tables::{Migrated, OpenFault};
use sqlite::{Alter, Connection};
use std::alloc::Global;

/// Carries the tables of a hall over to which a run from a new hall of the first schema leads. Its history goes on: the store has the hall
/// that it becomes, and a stop leaves that hall alone (`goes_on`), so that the clauses of the desk's calls hold of it from there. A stop
/// on the way leaves what it left before, or tables that spell the hall that it becomes (`stop`).
///
/// # Errors
///
/// Those of `SqlStore::migrate`.
pub fn migrated_goes_on<S: Alter>(
    alloc: Global,
    conn: Connection<S>,
) -> Result<(SqlStore<S>, Migrated), Refused<S, OpenFault>>
    ensures goes_on { IfOk result (λ done. ⟦<SqlStore<S> as HallStore>⟧.is_clean done.0 → (admin digest : List ℕ) (steps : List Step) (h next : Hall)
        → IsFirstRun (new_hall first admin digest) steps h → SpellFirst (state S.Store conn).now.trees h → IsMigrated h next
        → GoesOn ⟦<SqlStore<S> as HallStore>⟧ done.0 (carried_over admin digest steps) next) }
    ensures stop { HasCleanDisk (state S.Store (connection_after result)) → (admin digest : List ℕ) (steps : List Step) (h next : Hall)
        → IsFirstRun (new_hall first admin digest) steps h → SpellFirst (state S.Store conn).now.trees h → IsMigrated h next
        → (db : Trees) → (state S.Store (connection_after result)).may_leave db
        → (state S.Store conn).may_leave db ⊎ ((end : Hall) × SpellHall db end × Headline (carried_over admin digest steps) [] end) }
{
    histories_keep_the_laws();
    SqlStore::migrate(alloc, conn)
}

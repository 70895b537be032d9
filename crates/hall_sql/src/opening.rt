//! A connection becomes a store: of a new hall, or of the hall that the file has, which is carried over if it's of the first schema.
ghost use Rattle.sql_schema.specs.Words.{state, HasCleanDisk, Survives, Hall, new_hall, second, Holds, IsHeld, SpellHall};
ghost use Rattle.std.specs.Prelude.{◌≡◌, ◌≢◌, ◌↔◌, ◌⊎◌, IsTrue, IfOk, IfErr, Ok, Err, [], ◌∷◌};
ghost use Rattle.sql_tables.specs.{Creating.{IsBlank, IsWhole, KeepsTables, MayLeaveBesides, is_a_name_taken}, Migrating.{BecomeHall, IsRightMigration}, Opening.{IsRightAnswer, NamesNoSchema}};
ghost use Rattle.hall_sql.specs.{Opening.{connection_after, connection_of, migration_of, outcome}, Store.connection};

use crate::store::SqlStore;
use hall_store::HallStore;
use hall_types::{Digest, Name};
use sql_tables::{CreateFault, Migrated, OpenFault, create_tables, look_at_tables, migrate_tables};
use sqlite::{Alter, Connection};
use std::alloc::Global;

/// A connection over which no store was made, as the refusal left it, and the fault.
#[derive(Drop)]
pub struct Refused<S: Alter, F> {
    pub connection: Connection<S>,
    pub fault: F,
}

impl<S: Alter> SqlStore<S> {
    /// Makes the tables of a new hall of the second schema, beside what the file has, with this enabled admin, this digest of its token
    /// and the pool `default`, and answers its store. `alloc` is for what the store reads for itself. Which hall it is is said of a file
    /// that had no table.
    ///
    /// # Errors
    ///
    /// `NotEmpty` where a table, an index or a view has the name of one of a hall's tables, else `Unavailable`. A refusal
    /// leaves the tables as they were.
    pub fn create(
        alloc: Global,
        mut conn: Connection<S>,
        admin: Name,
        digest: Digest,
    ) -> Result<SqlStore<S>, Refused<S, CreateFault>>
        ensures clean { HasCleanDisk (state S.Store (connection_of result)) → HasCleanDisk (state S.Store conn) }
        ensures held { IfOk result (λ store. ⟦<SqlStore<S> as HallStore>⟧.is_clean store → IsBlank (state S.Store conn) → ⟦<SqlStore<S> as HallStore>⟧.holds store (new_hall second admin digest)) }
        ensures settled { IfOk result (λ store. ⟦<SqlStore<S> as HallStore>⟧.is_clean store → IsBlank (state S.Store conn) → ⟦<SqlStore<S> as HallStore>⟧.leaves store (new_hall second admin digest ∷ [])) }
        ensures made { IfOk result (λ store. HasCleanDisk (state S.Store (connection store)) → IsBlank (state S.Store conn) → IsHeld (state S.Store (connection store)) (new_hall second admin digest)) }
        ensures taken { (outcome result ≡ Err CreateFault.NotEmpty) ↔ IsTrue (is_a_name_taken (state S.Store conn).now.schema) }
        ensures refused { IfErr result (λ refused. HasCleanDisk (state S.Store refused.connection) → KeepsTables (state S.Store conn) (state S.Store refused.connection)) }
        ensures crash { HasCleanDisk (state S.Store (connection_of result)) → IsBlank (state S.Store conn) → MayLeaveBesides (new_hall second admin digest) (state S.Store conn) (state S.Store (connection_of result)) }
        ensures whole { HasCleanDisk (state S.Store (connection_of result)) → IsWhole (state S.Store conn) (state S.Store (connection_of result)) (outcome result) }
    {
        match create_tables(&mut conn, admin, digest) {
            Ok(()) => Ok(SqlStore::over(alloc, conn)),
            Err(fault) => Err(Refused {
                connection: conn,
                fault,
            }),
        }
    }

    /// The store of the hall that the connection's tables spell. Nothing is written. `alloc` is for what the store reads
    /// for itself.
    ///
    /// # Errors
    ///
    /// `NotAHall` where a table, a column or the one row that names the schema is missing, `OtherVersion` where that row
    /// names another schema than the second, and `Unavailable` where memory or the disk failed.
    pub fn open(
        alloc: Global,
        mut conn: Connection<S>,
    ) -> Result<SqlStore<S>, Refused<S, OpenFault>>
        ensures clean { HasCleanDisk (state S.Store (connection_of result)) → HasCleanDisk (state S.Store conn) }
        ensures held { IfOk result (λ store. ⟦<SqlStore<S> as HallStore>⟧.is_clean store → (h : Hall) → SpellHall (state S.Store conn).now.trees h → ⟦<SqlStore<S> as HallStore>⟧.holds store h) }
        ensures again { IfOk result (λ store. ⟦<SqlStore<S> as HallStore>⟧.is_clean store → (h : Hall) → Holds (state S.Store conn) h → ⟦<SqlStore<S> as HallStore>⟧.holds store h) }
        ensures settled { IfOk result (λ store. ⟦<SqlStore<S> as HallStore>⟧.is_clean store → (h : Hall) → SpellHall (state S.Store conn).now.trees h → ⟦<SqlStore<S> as HallStore>⟧.leaves store (h ∷ [])) }
        ensures opened { IfOk result (λ store. HasCleanDisk (state S.Store (connection store)) → (h : Hall) → SpellHall (state S.Store conn).now.trees h → IsHeld (state S.Store (connection store)) h) }
        ensures refused { IfErr result (λ refused. HasCleanDisk (state S.Store refused.connection) → IsTrue (state S.Store conn).is_open → (h : Hall) → SpellHall (state S.Store conn).now.trees h → refused.fault ≡ OpenFault.Unavailable) }
        ensures answered { HasCleanDisk (state S.Store (connection_of result)) → IsRightAnswer (state S.Store conn).now (outcome result) }
        ensures no_hall { HasCleanDisk (state S.Store (connection_of result)) → NamesNoSchema (state S.Store conn).now → (outcome result ≡ Err OpenFault.NotAHall) ⊎ (outcome result ≡ Err OpenFault.Unavailable) }
        ensures kept { HasCleanDisk (state S.Store (connection_of result)) → KeepsTables (state S.Store conn) (state S.Store (connection_of result)) }
        ensures survives { Survives (state S.Store conn) (state S.Store (connection_of result)) (λ _. ⊥) }
    {
        if let Err(fault) = look_at_tables(&mut conn) {
            return Err(Refused {
                connection: conn,
                fault,
            });
        }
        Ok(SqlStore::over(alloc, conn))
    }

    /// The store of the hall that the connection's tables spell, which are carried over to the second schema, in one transaction, if
    /// they are those of the first: each machine in Disk erasing or Failed disk erasing is erased in full, the one kind that the first
    /// schema knows, and nothing else changes. Tables of the second schema stay as they are. `alloc` is for what the store reads for
    /// itself.
    ///
    /// # Errors
    ///
    /// `NotAHall` where a table, a column or the one row that names the schema is missing, or the first schema has a table
    /// `wipes`, which only the second has; `OtherVersion` where that row names neither the first schema nor the second; `Unavailable` where
    /// memory or the disk failed. A refusal leaves the tables as they were.
    pub fn migrate(
        alloc: Global,
        mut conn: Connection<S>,
    ) -> Result<(SqlStore<S>, Migrated), Refused<S, OpenFault>>
        ensures clean { HasCleanDisk (state S.Store (connection_after result)) → HasCleanDisk (state S.Store conn) }
        ensures held { IfOk result (λ done. ⟦<SqlStore<S> as HallStore>⟧.is_clean done.0 → (h : Hall) → BecomeHall (state S.Store conn).now.trees h → ⟦<SqlStore<S> as HallStore>⟧.holds done.0 h) }
        ensures settled { IfOk result (λ done. ⟦<SqlStore<S> as HallStore>⟧.is_clean done.0 → (h : Hall) → BecomeHall (state S.Store conn).now.trees h → ⟦<SqlStore<S> as HallStore>⟧.leaves done.0 (h ∷ [])) }
        ensures opened { IfOk result (λ done. HasCleanDisk (state S.Store (connection done.0)) → (h : Hall) → BecomeHall (state S.Store conn).now.trees h → IsHeld (state S.Store (connection done.0)) h) }
        ensures refused { IfErr result (λ refused. HasCleanDisk (state S.Store refused.connection) → IsTrue (state S.Store conn).is_open → (h : Hall) → BecomeHall (state S.Store conn).now.trees h → refused.fault ≡ OpenFault.Unavailable) }
        ensures answered { HasCleanDisk (state S.Store (connection_after result)) → IsRightMigration (state S.Store conn).now (migration_of result) }
        ensures no_hall { HasCleanDisk (state S.Store (connection_after result)) → NamesNoSchema (state S.Store conn).now → (migration_of result ≡ Err OpenFault.NotAHall) ⊎ (migration_of result ≡ Err OpenFault.Unavailable) }
        ensures kept { HasCleanDisk (state S.Store (connection_after result)) → migration_of result ≢ Ok Migrated.Now → KeepsTables (state S.Store conn) (state S.Store (connection_after result)) }
        ensures crash { HasCleanDisk (state S.Store (connection_after result)) → (h : Hall) → BecomeHall (state S.Store conn).now.trees h → MayLeaveBesides h (state S.Store conn) (state S.Store (connection_after result)) }
    {
        match migrate_tables(&mut conn) {
            Ok(migrated) => Ok((SqlStore::over(alloc, conn), migrated)),
            Err(fault) => Err(Refused {
                connection: conn,
                fault,
            }),
        }
    }
}

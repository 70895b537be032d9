//! The tables of pools and of their members.
ghost use Rattle.sql_schema.specs.{Words.{state, HasCleanDisk, Survives, at, pair, member_columns, pool_columns, members, pools}, Steps.IsWritten, TableStatements.with_item};
ghost use Rattle.std.{specs.Prelude.{◌≡◌, None}, proofs.Common.rules};

use hall_types::{Member, Pool};
use sql_schema::creating::{ADD_MEMBER, ADD_POOL};
use sql_schema::{Table, name_in, name_value, write};
use sqlite::{Alter, Error, Row, Transaction};

/// The table of pools, by what it stores.
pub struct Pools;

impl Table for Pools {
    type Item = Pool;

    ghost values = { pool_columns };

    fn read(row: &Row) -> Result<Pool, Error> {
        if row.column_count() != 1 {
            return Err(Error::InvalidQuery);
        }
        let name = name_in(row, 0)?;
        Ok(Pool { name })
    }

    ghost single = { Prim.search rules };
}

/// A new pool, whose name has to be free.
pub fn add_pool<S: Alter>(tx: &mut Transaction<'_, S>, pool: &Pool) -> Result<(), Error>
    ensures same_reference { tx.new.conn.ghost_name ≡ tx.old.conn.ghost_name }
    ensures written { HasCleanDisk (state S.Store tx.new.conn.now) → IsWritten (state S.Store tx.old.conn.now) (state S.Store tx.new.conn.now) result (λ c. at c.hall.pools pool.now.name ≡ None) (λ c. with_item pools c pool.now) }
    ensures survives { Survives (state S.Store tx.old.conn.now) (state S.Store tx.new.conn.now) (λ _. ⊥) }
{
    write(tx, ADD_POOL, &[name_value(&pool.name)])
}

/// The table of members, by what it stores.
pub struct Members;

impl Table for Members {
    type Item = Member;

    ghost values = { member_columns };

    fn read(row: &Row) -> Result<Member, Error> {
        if row.column_count() != 2 {
            return Err(Error::InvalidQuery);
        }
        let pool = name_in(row, 0)?;
        let operator = name_in(row, 1)?;
        Ok(Member { pool, operator })
    }

    ghost single = { Prim.search rules };
}

/// A new member, whose pool and operator have to be free together.
pub fn add_member<S: Alter>(tx: &mut Transaction<'_, S>, member: &Member) -> Result<(), Error>
    ensures same_reference { tx.new.conn.ghost_name ≡ tx.old.conn.ghost_name }
    ensures written { HasCleanDisk (state S.Store tx.new.conn.now) → IsWritten (state S.Store tx.old.conn.now) (state S.Store tx.new.conn.now) result (λ c. at c.hall.members (pair member.now.pool member.now.operator) ≡ None) (λ c. with_item members c member.now) }
    ensures survives { Survives (state S.Store tx.old.conn.now) (state S.Store tx.new.conn.now) (λ _. ⊥) }
{
    write(
        tx,
        ADD_MEMBER,
        &[name_value(&member.pool), name_value(&member.operator)],
    )
}

//! The table of live images.
ghost use Rattle.sql_schema.specs.{Words.{list_any, bytes_eq, state, HasCleanDisk, Survives, arch_number, listed, live_values, IsTableRead, lives, arch_by_number, same_kind}, Steps.{IsWritten, always}, TableStatements.with_item};
ghost use Rattle.std.{specs.Prelude.◌≡◌, proofs.Common.rules};

use hall_types::{Live, Name, arch_number};
use sql_schema::creating::ADD_LIVE;
use sql_schema::{Table, kind_in, name_in, name_value, put, small_value};
use sqlite::{Alter, Connection, Error, Row, Transaction};

// The first architecture that has a live image.
const FIND_LIVE_WITH_IMAGE: &str = "SELECT arch FROM lives WHERE image = ?1 ORDER BY arch LIMIT 1";

// The live image of an architecture, changed if it has one.
const SET_LIVE: &str = "UPDATE lives SET image = ?2 WHERE arch = ?1 RETURNING arch";

/// The table of live images, by what it stores.
pub struct Lives;

impl Table for Lives {
    type Item = Live;

    ghost values = { live_values };

    fn read(row: &Row) -> Result<Live, Error> {
        if row.column_count() != 2 {
            return Err(Error::InvalidQuery);
        }
        let arch = kind_in(row, 0)?;
        let image = name_in(row, 1)?;
        Ok(Live { arch, image })
    }

    ghost single = { Prim.search (rules, same_kind arch_by_number) };
}

/// Whether an image is some architecture's live image.
pub fn is_live<S: Alter>(conn: &mut Connection<S>, image: &Name) -> Result<bool, Error>
    ensures clean { HasCleanDisk (state S.Store conn.new) → HasCleanDisk (state S.Store conn.old) }
    ensures asked { HasCleanDisk (state S.Store conn.new) → IsTableRead (state S.Store conn.old) (state S.Store conn.new) result (λ h is. is ≡ list_any (λ l. bytes_eq l.image image.now) (listed h.lives)) }
{
    match conn.query_all(FIND_LIVE_WITH_IMAGE, &[name_value(image)]) {
        Ok(rows) => Ok(!rows.is_empty()),
        Err(error) => Err(error),
    }
}

/// A live image's row, new or in place of the one that has its key.
pub fn put_live<S: Alter>(tx: &mut Transaction<'_, S>, live: &Live) -> Result<(), Error>
    ensures same_reference { tx.new.conn.ghost_name ≡ tx.old.conn.ghost_name }
    ensures written { HasCleanDisk (state S.Store tx.new.conn.now) → IsWritten (state S.Store tx.old.conn.now) (state S.Store tx.new.conn.now) result always (λ c. with_item lives c live.now) }
    ensures survives { Survives (state S.Store tx.old.conn.now) (state S.Store tx.new.conn.now) (λ _. ⊥) }
{
    put(
        tx,
        SET_LIVE,
        ADD_LIVE,
        &[small_value(arch_number(live.arch)), name_value(&live.image)],
    )
}

//! A change as one transaction.
ghost use Rattle.sql_schema.specs.Words.{state, HasCleanDisk};
ghost use Rattle.std.specs.Prelude.{◌≡◌};
ghost use Rattle.hall_sql.specs.Applying.{IsTold};

use crate::writes::write_row;
use hall_types::RowWrite;
use sqlite::{Alter, Connection, Error};
use std::alloc::Global;

/// Writes all rows of a change in one transaction, or none. They are to keep the tables' rules. `alloc` is for the text of an image's
/// arguments.
///
/// # Errors
///
/// An error of SQLite where a row can't be written, as a machine's row that was to have another version, one that was to be new and is
/// there, and one whose deadline is past the greatest number of a column, 2^63 - 1; where the commit failed; and where a transaction
/// was begun before. The hall is as it was, as long as the connection is open.
pub(crate) fn write_rows<S: Alter>(
    alloc: Global,
    conn: &mut Connection<S>,
    writes: &[RowWrite],
) -> Result<(), Error>
    ensures clean { HasCleanDisk (state S.Store conn.new) → HasCleanDisk (state S.Store conn.old) }
    ensures told { HasCleanDisk (state S.Store conn.new) → IsTold (state S.Store conn.old) (state S.Store conn.new) result writes.now }
{
    if !conn.is_autocommit() {
        return Err(Error::InvalidQuery);
    }
    let mut tx = conn.transaction();
    'writes: for write in writes {
        write_row(alloc, &mut tx, write)?;
    }
    tx.commit()
}

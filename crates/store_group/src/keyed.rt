//! A row under its key, before and after row writes.
ghost use Rattle.std.specs.Prelude.{◌≡◌, Option, IfOk};
ghost use Rattle.hall_types.specs.Hall.{Hall, applied, written};

use hall_types::RowWrite;
use std::alloc::{AllocError, Global};

/// The key of a row.
pub(crate) trait Keyed<X> {
    // the row that a hall has under this key
    ghost row_in: { Self → Hall → Option X };

    /// The row after a row write, where it was `row` before.
    fn after(
        &self,
        alloc: Global,
        row: Option<X>,
        write: &RowWrite,
    ) -> Result<Option<X>, AllocError>
        ensures { (h : Hall) → row ≡ row_in self.now h → IfOk result (λ after. after ≡ row_in self.now (written write.now h)) };
}

/// The row after row writes, where it was `row` before them.
pub(crate) fn after_all<X: Drop, K: Keyed<X>>(
    alloc: Global,
    key: &K,
    row: Option<X>,
    writes: &[RowWrite],
) -> Result<Option<X>, AllocError>
    ensures { (h : Hall) → row ≡ K.Keyed.row_in key.now h → IfOk result (λ after. after ≡ K.Keyed.row_in key.now (applied writes.now h)) }
{
    let mut last = row;
    'writes: for write in writes {
        last = key.after(alloc, last, write)?;
    }
    Ok(last)
}

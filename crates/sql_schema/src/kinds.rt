//! Kinds in columns, by their numbers.
ghost use Rattle.sql_schema.specs.{Prelude.column, Columns.number};
ghost use Rattle.std.specs.Prelude.{◌≡◌, IfOk};

use crate::values::small_in;
use hall_types::Numbered;
use sqlite::{Error, Row};

/// The one of a kind whose number is in a column.
pub fn kind_in<K: Numbered>(row: &Row, at: usize) -> Result<K, Error>
    ensures { IfOk result (λ kind. column row.now at ≡ number (K.number_of kind)) }
{
    let number = small_in(row, at)?;
    K::with_number(number).ok_or(Error::IntegralValueOutOfRange(at))
}

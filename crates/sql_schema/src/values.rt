//! Values of columns: what is outside a column's range is an error.
ghost use Rattle.sql_schema.specs.{Prelude.{Int, Text, Blob, column, owned}, Columns.{number, truth_number}};
ghost use Rattle.std.specs.Prelude.{◌≡◌, ◌<◌, ◌^◌, pos, IfOk};

use hall_types::{Name, Number};
use sqlite::types::{Type, ValueRef};
use sqlite::{Error, Row};

/// The name in a column.
pub fn name_in(row: &Row, at: usize) -> Result<Name, Error>
    ensures { IfOk result (λ name. column row.now at ≡ Text name) }
{
    let text: String = row.get(at)?;
    Name::new(text.as_str()).map_err(|_| Error::InvalidColumnType(at, Type::Text))
}

/// The number of a machine, a boot or an order in a column.
pub fn number_in(row: &Row, at: usize) -> Result<Number, Error>
    ensures { IfOk result (λ n. column row.now at ≡ number n) }
{
    Number::new(row.get(at)?).map_err(|_| Error::IntegralValueOutOfRange(at))
}

/// The small number in a column, as that of a kind.
pub fn small_in(row: &Row, at: usize) -> Result<u8, Error>
    ensures { IfOk result (λ n. column row.now at ≡ number n) }
{
    u8::try_from(row.get::<u64>(at)?).map_err(|_| Error::IntegralValueOutOfRange(at))
}

/// The truth value in a column, 0 or 1.
pub fn truth_in(row: &Row, at: usize) -> Result<bool, Error>
    ensures { IfOk result (λ truth. column row.now at ≡ number (truth_number truth)) }
{
    match small_in(row, at) {
        Ok(0) => Ok(false),
        Ok(1) => Ok(true),
        Ok(_) => Err(Error::IntegralValueOutOfRange(at)),
        Err(error) => Err(error),
    }
}

/// So many octets in a column.
pub fn octets_in<const N: usize>(row: &Row, at: usize) -> Result<[u8; N], Error>
    ensures { IfOk result (λ octets. column row.now at ≡ Blob octets) }
{
    let blob: Vec<u8> = row.get(at)?;
    <[u8; N]>::try_from(blob.as_slice()).map_err(|_| Error::InvalidColumnType(at, Type::Blob))
}

/// A number as a parameter.
pub fn number_value<'a>(n: u64) -> ValueRef<'a>
    requires { n < 2 ^ 63 }
    ensures { owned result ≡ number n }
{
    ValueRef::Int(n as i64)
}

/// A small number as a parameter, as that of a kind.
pub fn small_value<'a>(n: u8) -> ValueRef<'a>
    ensures { owned result ≡ number n }
{
    ValueRef::Int(i64::from(n))
}

/// A truth value as a parameter.
pub fn truth_value<'a>(truth: bool) -> ValueRef<'a>
    ensures { owned result ≡ number (truth_number truth) }
{
    if truth {
        ValueRef::Int(1)
    } else {
        ValueRef::Int(0)
    }
}

/// A name as a parameter.
pub fn name_value(name: &Name) -> ValueRef<'_>
    ensures { owned result ≡ Text name.now }
{
    ValueRef::Text(name.text().as_bytes())
}

/// A text as a parameter.
pub fn text_value(text: &str) -> ValueRef<'_>
    ensures { owned result ≡ Text text.now }
{
    ValueRef::Text(text.as_bytes())
}

/// Octets as a parameter.
pub fn octets_value(octets: &[u8]) -> ValueRef<'_>
    ensures { owned result ≡ Blob octets.now }
{
    ValueRef::Blob(octets)
}

//! Columns of a machine's row: what is outside a column's range is an error.
ghost use Rattle.sql_schema.specs.Words.{Null, Text, Blob, column, status_number, number, or_null};
ghost use Rattle.std.specs.Prelude.{◌≡◌, IfOk, IsTrue};

use hall_types::{BootCount, MachineUuid, Name, Number, Status, Version};
use sql_schema::{kind_in, name_in, number_in, octets_in, small_in};
use sqlite::types::ValueRef;
use sqlite::{Error, Row};

pub(crate) fn optional_name_in(row: &Row, at: usize) -> Result<Option<Name>, Error>
    ensures { IfOk result (λ name. column row.now at ≡ or_null Text name) }
{
    match row.get_ref(at)? {
        ValueRef::Null => Ok(None),
        _ => Ok(Some(name_in(row, at)?)),
    }
}

pub(crate) fn optional_uuid_in(row: &Row, at: usize) -> Result<Option<MachineUuid>, Error>
    ensures { IfOk result (λ uuid. column row.now at ≡ or_null Blob uuid) }
{
    match row.get_ref(at)? {
        ValueRef::Null => Ok(None),
        _ => Ok(Some(MachineUuid::from(octets_in(row, at)?))),
    }
}

pub(crate) fn optional_status_in(row: &Row, at: usize) -> Result<Option<Status>, Error>
    ensures { IfOk result (λ status. column row.now at ≡ or_null (λ s. number (status_number s)) status) }
{
    match row.get_ref(at)? {
        ValueRef::Null => Ok(None),
        _ => Ok(Some(kind_in(row, at)?)),
    }
}

pub(crate) fn optional_number_in(row: &Row, at: usize) -> Result<Option<Number>, Error>
    ensures { IfOk result (λ id. column row.now at ≡ or_null number id) }
{
    match row.get_ref(at)? {
        ValueRef::Null => Ok(None),
        _ => Ok(Some(number_in(row, at)?)),
    }
}

/// A deadline, which may be after the last moment.
pub(crate) fn deadline_in(row: &Row, at: usize) -> Result<Option<u64>, Error>
    ensures { IfOk result (λ deadline. column row.now at ≡ or_null number deadline) }
{
    match row.get_ref(at)? {
        ValueRef::Null => Ok(None),
        _ => Ok(Some(row.get(at)?)),
    }
}

pub(crate) fn version_in(row: &Row, at: usize) -> Result<Version, Error>
    ensures { IfOk result (λ version. column row.now at ≡ number version) }
{
    Version::new(row.get(at)?).map_err(|_| Error::IntegralValueOutOfRange(at))
}

pub(crate) fn boots_in(row: &Row, at: usize) -> Result<BootCount, Error>
    ensures { IfOk result (λ boots. column row.now at ≡ number boots) }
{
    BootCount::new(small_in(row, at)?).map_err(|_| Error::IntegralValueOutOfRange(at))
}

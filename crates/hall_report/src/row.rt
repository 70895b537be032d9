//! The rows of an import.
ghost use Rattle.std.specs.Prelude.{◌≡◌, ◌==◌, ◌∷◌, ◌++◌, [], map, OnOk, option_copied};
ghost use Rattle.hall_report.specs.{Prelude.fields_of, Import.{Answers, arch_at, key_at, mac_at, pool_at, row_in, row_of, rows_from, text_at, uuid_at, uuid_of, with_ok}};

use crate::fault::ImportFault;
use csv::ByteRecord;
use hall_http::{text_of, uuid_octets};
use hall_types::{MacAddress, MachineUuid, Name, RequestKey};
use pxe_vendor::Arch;
use std::alloc::{AllocError, Global};

/// A machine to be added, with the key of the request that adds it.
#[derive(Clone, Copy)]
pub struct ImportRow {
    pub key: RequestKey,
    pub mac: MacAddress,
    pub arch: Arch,
    pub uuid: Option<MachineUuid>,
    pub pool: Name,
}

/// How many fields a record has.
pub(crate) const FIELDS: usize = 5;

fn text_at(values: &ByteRecord, column: usize) -> Option<&str>
    ensures { option_copied result ≡ text_at column (fields_of values.now) }
{
    text_of(values.get(column)?)
}

fn uuid_of(text: &str) -> Option<Option<MachineUuid>>
    ensures { result ≡ uuid_of text.now }
{
    if text.is_empty() {
        return Some(None);
    }
    MachineUuid::identifying(uuid_octets(text)?).map(Some)
}

fn key_at(values: &ByteRecord) -> Option<RequestKey>
    ensures { result ≡ key_at (fields_of values.now) }
{
    let octets = uuid_octets(text_at(values, 0)?)?;
    Some(RequestKey::from(octets))
}

fn mac_at(values: &ByteRecord) -> Option<MacAddress>
    ensures { result ≡ mac_at (fields_of values.now) }
{
    text_at(values, 1)?.parse().ok()
}

fn arch_at(values: &ByteRecord) -> Option<Arch>
    ensures { result ≡ arch_at (fields_of values.now) }
{
    text_at(values, 2)?.parse().ok()
}

fn uuid_at(values: &ByteRecord) -> Option<Option<MachineUuid>>
    ensures { result ≡ uuid_at (fields_of values.now) }
{
    uuid_of(text_at(values, 3)?)
}

fn pool_at(values: &ByteRecord) -> Option<Name>
    ensures { result ≡ pool_at (fields_of values.now) }
{
    Name::new(text_at(values, 4)?).ok()
}

fn row_in(values: &ByteRecord) -> Option<ImportRow>
    ensures { result ≡ row_in (fields_of values.now) }
{
    Some(ImportRow {
        key: key_at(values)?,
        mac: mac_at(values)?,
        arch: arch_at(values)?,
        uuid: uuid_at(values)?,
        pool: pool_at(values)?,
    })
}

// The row of a record, if it has five fields and each is good.
fn row_of(values: &ByteRecord) -> Option<ImportRow>
    ensures { result ≡ row_of (fields_of values.now) }
{
    if values.len() == FIELDS {
        row_in(values)
    } else {
        None
    }
}

// It names the UUID's type, which the proof of `push` does not find by itself.
fn push_row(rows: &mut Vec<ImportRow>, row: ImportRow) -> Result<(), AllocError>
    ensures { OnOk result (rows.new.items ≡ rows.old.items ++ row ∷ []) }
{
    let _uuid: Option<MachineUuid> = row.uuid;
    rows.push(row)?;
    Ok(())
}

/// The rows of the records after a header.
#[tactic(auto, unfolding(crate::specs::Import::rows_from))]
pub(crate) fn rows_of(alloc: Global, later: &[ByteRecord]) -> Result<Vec<ImportRow>, ImportFault>
    ensures { Answers (with_ok (λ rows. rows.items) result) (rows_from 1 (map fields_of later.now)) }
{
    let mut rows = Vec::new(alloc);
    for (column, values) in later.iter().enumerate() {
        match row_of(values) {
            Some(row) => push_row(&mut rows, row)?,
            None => return Err(ImportFault::BadRow(column as u64 + 1)),
        }
    }
    Ok(rows)
}

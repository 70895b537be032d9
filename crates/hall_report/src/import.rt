//! The import of new machines.
ghost use Rattle.std.specs.Prelude.{◌≡◌, IfOk, map, codes};
ghost use Rattle.hall_report.specs.{Prelude.{default_config, records, strip_bom, field_at, fields_of}, Import.{Answers, import_in, import_of, is_field, is_header, with_ok}};

use crate::fault::ImportFault;
use crate::row::{FIELDS, ImportRow, rows_of};
use csv::{ByteRecord, ReaderBuilder};
use std::alloc::{AllocError, Global};

// All records of a file. An error over octets in memory is want of it.
fn records_of(alloc: Global, octets: &[u8]) -> Result<Vec<ByteRecord>, AllocError>
    ensures { IfOk result (λ all. map fields_of all.items ≡ records default_config (strip_bom octets.now)) }
{
    let reader = ReaderBuilder::new()
        .has_headers(false)
        .flexible(true)
        .from_reader(alloc, octets);
    let mut all = Vec::new(alloc);
    for record in reader.into_byte_records() {
        match record {
            Ok(record) => all.push(record)?,
            Err(_) => return Err(AllocError),
        }
    }
    Ok(all)
}

fn has_field(values: &ByteRecord, column: usize, name: &str) -> bool
    ensures { result ≡ is_field name.now (field_at (fields_of values.now) column) }
{
    match values.get(column) {
        Some(field) => field == name.as_bytes(),
        None => false,
    }
}

fn is_header(values: &ByteRecord) -> bool
    ensures { result ≡ is_header (fields_of values.now) }
{
    values.len() == FIELDS
        && has_field(values, 0, "key")
        && has_field(values, 1, "mac")
        && has_field(values, 2, "arch")
        && has_field(values, 3, "uuid")
        && has_field(values, 4, "pool")
}

fn import_of(alloc: Global, all: &[ByteRecord]) -> Result<Vec<ImportRow>, ImportFault>
    ensures { Answers (with_ok (λ rows. rows.items) result) (import_of (map fields_of all.now)) }
{
    let Some((header, later)) = all.split_first() else {
        return Err(ImportFault::BadHeader);
    };
    if !is_header(header) {
        return Err(ImportFault::BadHeader);
    }
    rows_of(alloc, later)
}

/// The machines that a file of comma-separated values (RFC 4180) adds: after the header `key,mac,arch,uuid,pool` one a
/// record, with a request's key and a UUID as `uuid` parses them, the UUID perhaps empty, but not all 0 or all 255; an
/// address of six pairs of hexadecimal digits with colons; `bios`, `uefi32`, `uefi64` or `arm64`; and a name.
///
/// A byte order mark at the start and empty lines are passed over.
///
/// Faults, in this order: `BadHeader`, also where there is no record; `BadRow` with the number, from 1 on, of the first record
/// after the header that has another number of fields or a bad field. `Memory` may come in the place of each.
pub fn import_rows(alloc: Global, octets: &[u8]) -> Result<Vec<ImportRow>, ImportFault>
    ensures { Answers (with_ok (λ rows. rows.items) result) (import_in octets.now) }
{
    let all = records_of(alloc, octets)?;
    import_of(alloc, &all)
}

/// The number of the first malformed row of a file of machines, if there is one. Rows are counted from 1, after the header.
pub fn bad_row(alloc: Global, octets: &[u8]) -> Option<u64> {
    match import_rows(alloc, octets) {
        Err(ImportFault::BadRow(number)) => Some(number),
        _ => None,
    }
}

//! A file of running servers: comma-separated values (RFC 4180) with a machine's number and the name of its image.
use crate::adopt::{MAX_MACHINES, Running};
use crate::failure::{Failure, because, octets_of};
use csv::{ByteRecord, ReaderBuilder};
use hall_http::text_of;
use hall_report::Fault;
use hall_types::{Name, Number};
use pxe_vendor::numeral;
use std::alloc::{AllocError, Global};

// How many fields a record has.
const FIELDS: usize = 2;

// All records of a file. An error over octets in memory is want of it.
fn records_of(alloc: Global, octets: &[u8]) -> Result<Vec<ByteRecord>, AllocError> {
    let reader = ReaderBuilder::new()
        .has_headers(false)
        .flexible(true)
        .from_reader(alloc, octets);
    let mut all = Vec::new(alloc);
    for record in reader.into_byte_records() {
        match record {
            Ok(record) => all.push(record)?,
            Err(_) => return Err(AllocError),
        }
    }
    Ok(all)
}

fn has_field(record: &ByteRecord, column: usize, name: &str) -> bool {
    match record.get(column) {
        Some(field) => field == name.as_bytes(),
        None => false,
    }
}

fn is_header(record: &ByteRecord) -> bool {
    record.len() == FIELDS && has_field(record, 0, "machine") && has_field(record, 1, "image")
}

// The machine and the image of a record.
fn server_in(record: &ByteRecord) -> Option<Running> {
    if record.len() != FIELDS {
        return None;
    }
    let machine = Number::new(numeral(record.get(0)?)?).ok()?;
    let image = Name::new(text_of(record.get(1)?)?).ok()?;
    Some((machine, image))
}

// The servers of the records of a file, or the number of the first bad one, from 1 on.
fn servers_of(
    alloc: Global,
    records: &[ByteRecord],
) -> Result<Result<Vec<Running>, usize>, AllocError> {
    let mut servers = Vec::new(alloc);
    for (place, record) in records.iter().enumerate() {
        match server_in(record) {
            Some(server) if (place as u64) < MAX_MACHINES => servers.push(server)?,
            _ => return Ok(Err(place + 1)),
        }
    }
    Ok(Ok(servers))
}

/// The running servers of a file that begins with `machine,image`.
pub(crate) fn servers_at(rt: &HostRuntime, path: &str) -> Result<Vec<Running>, Failure> {
    let octets = octets_of(rt, path)?;
    let records = records_of(rt.alloc(), &octets)?;
    match records.as_slice().split_first() {
        Some((header, later)) if is_header(header) => match servers_of(rt.alloc(), later)? {
            Ok(servers) => Ok(servers),
            Err(row) => {
                let reason = format!(in rt.alloc(); "{path}: row {row} after the header");
                Err(because(Fault::BadRow, reason))
            }
        },
        _ => {
            let reason = format!(in rt.alloc(); "{path}: its first line isn't machine,image");
            Err(because(Fault::BadHeader, reason))
        }
    }
}

//! Options that several commands have.
use command_rows::{OptionRow, Options, Shape, Wrong};
use pxe_vendor::{Place, PlaceFault};
use std::net::Ipv4Addr;

pub(crate) const DB: &OptionRow = &OptionRow {
    name: "db",
    value: "FILE",
    help: "The hall's file",
    ..OptionRow::ALWAYS
};

pub(crate) const AT: &OptionRow = &OptionRow {
    name: "at",
    value: "MOMENT",
    help: "The moment, in seconds since 1970-01-01 00:00:00 UTC",
    must: "seconds since 1970 are decimal digits without a leading zero, at most 1000000000000",
    ..OptionRow::ALWAYS
};

pub(crate) const WHY: &OptionRow = &OptionRow {
    name: "why",
    help: "Says in a second line what a fault is about, as it does at a terminal",
    ..OptionRow::FLAG
};

const SERVER: &OptionRow = &OptionRow {
    name: "server",
    value: "IP",
    help: "The address of this server",
    must: ADDRESS,
    shape: Shape::OrElse("192.0.2.1"),
    ..OptionRow::MAYBE
};

const NEXT: &OptionRow = &OptionRow {
    name: "next",
    value: "IP",
    help: "The address of the TFTP server",
    must: ADDRESS,
    shape: Shape::OrElse("192.0.2.2"),
    ..OptionRow::MAYBE
};

const HOST: &OptionRow = &OptionRow {
    name: "host",
    value: "HOST",
    help: "The host in the scripts' addresses",
    must: "a host has 1 to 64 letters, digits, hyphens, dots and colons, the first a letter or a digit",
    shape: Shape::OrElse("hall.example"),
    ..OptionRow::MAYBE
};

const ADDRESS: &str = "an IPv4 address is as in 10.0.0.5";

/// What the path of a copy must be.
pub(crate) const PATH: &str = "it is the path of a file";

/// The option of every command.
pub(crate) const COMMON: [&OptionRow; 1] = [WHY];

/// The same with those of the place that is served.
pub(crate) const WITH_PLACE: [&OptionRow; 4] = [WHY, SERVER, NEXT, HOST];

/// The text of an option that has to be given.
pub(crate) fn owned(options: &Options<'_>, row: &OptionRow) -> Result<String, Wrong> {
    Ok(String::from_str(options.alloc(), options.required(row)?)?)
}

/// The path of an option that has to be given, which isn't empty.
pub(crate) fn path(options: &Options<'_>, row: &OptionRow) -> Result<String, Wrong> {
    if options.text(row) == Some("") {
        return Err(options.wrong(row));
    }
    owned(options, row)
}

fn address(options: &Options<'_>, row: &OptionRow) -> Result<[u8; 4], Wrong> {
    let address: Ipv4Addr = options.parse(row)?;
    Ok(address.octets())
}

/// The place that is served.
pub(crate) fn place(options: &Options<'_>) -> Result<Place, Wrong> {
    let server = address(options, SERVER)?;
    let next = address(options, NEXT)?;
    let host = options.required(HOST)?;
    match Place::new(options.alloc(), server, next, host) {
        Ok(place) => Ok(place),
        Err(PlaceFault::BadHost) => Err(options.wrong(HOST)),
        Err(PlaceFault::Memory) => Err(Wrong::Memory),
    }
}

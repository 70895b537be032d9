//! Why a fault came, in words for people. It is found out afterwards, by another look at what was given, so that it may be another reason by
//! then.
use crate::common::DB;
use crate::failure::octets_of;
use crate::import::FILE;
use crate::report::WHAT;
use crate::serve::{BOOT, DISCOVER, HTTP, LOG};
use command_rows::{OptionRow, Options};
use hall_report::{Fault, bad_row};
use hallboot_files::{is_foreign, is_no_file};
use std::fs::{self, OpenOptions};
use std::net::{SocketAddr, TcpListener, UdpSocket};
use std::os::unix::fs::MetadataExt;

// Why the address of an option can't be bound, if it can't.
fn refusal_of(rt: &HostRuntime, options: &Options<'_>, row: &OptionRow) -> Option<String> {
    let text = options.text(row)?;
    let address = text.parse::<SocketAddr>().ok()?;
    let error = if row.name == HTTP.name {
        TcpListener::bind(rt, address).err()?
    } else {
        UdpSocket::bind(rt, address).err()?
    };
    let name = row.name;
    format!(in rt.alloc(); "--{name} {text}: {error}").ok()
}

// Why a file can't be opened, or isn't one of SQLite.
fn opening_reason(rt: &HostRuntime, path: &str) -> Option<String> {
    match OpenOptions::new().read(true).write(true).open(rt, path) {
        Ok(_) if is_foreign(rt, path) => {
            format!(in rt.alloc(); "{path} isn't a file of SQLite").ok()
        }
        Ok(_) => None,
        Err(error) => format!(in rt.alloc(); "{path}: {error}").ok(),
    }
}

// Why a file can't be a hall's, whatever its tables are.
fn unfit_reason(rt: &HostRuntime, path: &str) -> Option<String> {
    match fs::metadata(rt, path) {
        Ok(_) if is_no_file(rt, path) => format!(in rt.alloc(); "{path} is no file").ok(),
        Ok(found) if found.nlink() > 1 => {
            let links = found.nlink();
            format!(in rt.alloc();
                "{path} has {links} names (hard links), and its log stands beside one of them"
            ).ok()
        }
        Ok(_) => opening_reason(rt, path),
        Err(error) => format!(in rt.alloc(); "{path}: {error}").ok(),
    }
}

fn file_reason(rt: &HostRuntime, path: &str, fault: Fault) -> Option<String> {
    if let Some(reason) = unfit_reason(rt, path) {
        return Some(reason);
    }
    let alloc = rt.alloc();
    let reason = match fault {
        Fault::NotEmpty => format!(in alloc; "{path} has a hall already"),
        Fault::NotAHall => format!(in alloc;
            "{path} doesn't have the tables of a hall: init makes one"
        ),
        Fault::OtherVersion => format!(in alloc;
            "{path} has a hall of another schema: migrate carries one of schema 1 over"
        ),
        _ => format!(in alloc;
            "another program may have {path} open, or memory or the disk failed"
        ),
    };
    reason.ok()
}

// Why a file of machines can't be imported.
fn row_reason(rt: &HostRuntime, path: &str, fault: Fault) -> Option<String> {
    let alloc = rt.alloc();
    if fault == Fault::BadHeader {
        return format!(in alloc; "{path}: its first line isn't key,mac,arch,uuid,pool").ok();
    }
    let Ok(octets) = octets_of(rt, path) else {
        return format!(in alloc; "{path} is too long").ok();
    };
    let row = bad_row(alloc, &octets)?;
    format!(in alloc; "{path}: row {row} after the header").ok()
}

// Why the log of a service can't be added to.
fn log_reason(rt: &HostRuntime, path: &str) -> Option<String> {
    let error = OpenOptions::new().append(true).open(rt, path).err()?;
    format!(in rt.alloc(); "--log {path}: {error}").ok()
}

// Whether the log can't be written, or what else may have failed.
fn io_reason(rt: &HostRuntime, options: &Options<'_>) -> Option<String> {
    if let Some(path) = options.text(LOG)
        && path != "-"
        && let Some(reason) = log_reason(rt, path)
    {
        return Some(reason);
    }
    String::from_str(
        rt.alloc(),
        "standard input or output, or the log; or there are too few descriptors (ulimit -n)",
    )
    .ok()
}

/// What a fault of a task is about, in words, if there is more to be said than its name.
pub fn reason(rt: &HostRuntime, options: &Options<'_>, fault: Fault) -> Option<String> {
    match fault {
        Fault::BadInput => String::from_str(
            rt.alloc(),
            "the input, or a word of the command line, isn't of its form",
        )
        .ok(),
        Fault::Bind => {
            let rows = [DISCOVER, BOOT, HTTP];
            rows.iter().find_map(|row| refusal_of(rt, options, row))
        }
        Fault::BadHeader | Fault::BadRow => row_reason(rt, options.text(FILE)?, fault),
        Fault::Unavailable | Fault::NotEmpty | Fault::NotAHall | Fault::OtherVersion => {
            file_reason(rt, options.text(DB)?, fault)
        }
        Fault::Io => io_reason(rt, options),
        Fault::NoMachine => {
            let what = options.text(WHAT)?;
            format!(in rt.alloc(); "--what {what}: the hall has no such machine").ok()
        }
        Fault::Memory => None,
    }
}

//! Why a command line or its task failed, and files that are read, with what the system refuses.
use command_rows::Wrong;
use hall_report::Fault;
use std::alloc::AllocError;
use std::fs::File;
use std::io;
use std::io::{ErrorKind, Read};

/// A fault, and what it is about, where more is known of it than another look at the command line would find.
#[derive(Drop)]
pub struct Failure {
    pub fault: Fault,
    pub reason: Option<String>,
}

impl From<Fault> for Failure {
    fn from(fault: Fault) -> Failure {
        Failure {
            fault,
            reason: None,
        }
    }
}

impl From<AllocError> for Failure {
    fn from(_error: AllocError) -> Failure {
        Failure::from(Fault::Memory)
    }
}

impl From<Wrong> for Failure {
    fn from(wrong: Wrong) -> Failure {
        match wrong {
            Wrong::Text(text) => Failure {
                fault: Fault::BadInput,
                reason: Some(text),
            },
            Wrong::Memory => Failure::from(Fault::Memory),
        }
    }
}

/// The failure of a fault for this reason, if there was memory for it.
pub fn because<E: Drop>(fault: Fault, reason: Result<String, E>) -> Failure {
    Failure {
        fault,
        reason: reason.ok(),
    }
}

/// What the system refused at a path.
pub fn refused(rt: &HostRuntime, path: &str, error: &io::Error) -> Failure {
    because(fault_of(error), format!(in rt.alloc(); "{path}: {error}"))
}

/// The maximum of octets of a file of machines: a row of each of 100,000 machines.
const MAX_FILE_LEN: u64 = 16_777_216;

/// The maximum of octets that are read of a file for its first line.
const MAX_LINE_LEN: u64 = 4_096;

/// The fault of what the system refused.
pub fn fault_of(error: &io::Error) -> Fault {
    if error.kind() == ErrorKind::OutOfMemory {
        Fault::Memory
    } else {
        Fault::Io
    }
}

// The octets that a file begins with, at most so many.
fn start_of(rt: &HostRuntime, path: &str, max: u64) -> io::Result<Vec<u8>> {
    let mut octets = Vec::new(rt.alloc());
    File::open(rt, path)?.take(max).read_to_end(&mut octets)?;
    Ok(octets)
}

/// The octets of a file of machines. The fault is `BadRow` where it is too long.
pub(crate) fn octets_of(rt: &HostRuntime, path: &str) -> Result<Vec<u8>, Failure> {
    let octets = start_of(rt, path, MAX_FILE_LEN + 1).map_err(|error| refused(rt, path, &error))?;
    if octets.len() as u64 > MAX_FILE_LEN {
        let reason = format!(in rt.alloc(); "{path} is too long");
        return Err(because(Fault::BadRow, reason));
    }
    Ok(octets)
}

/// The first line of a file, if it is short; an empty one where it isn't UTF-8.
pub(crate) fn first_line(rt: &HostRuntime, path: &str) -> Result<String, Failure> {
    let octets = start_of(rt, path, MAX_LINE_LEN).map_err(|error| refused(rt, path, &error))?;
    let text = std::str::from_utf8(octets.as_slice()).unwrap_or("");
    let line = text.split('\n').next().unwrap_or(text);
    Ok(String::from_str(rt.alloc(), line)?)
}

//! Files that an operator names.
use std::fs::{File, metadata};
use std::io;
use std::io::{ErrorKind, Read};
use std::os::unix::fs::{MetadataExt, PermissionsExt};
use thiserror::Error;

// The maximum of octets of a file that is read.
const MAX_FILE_LEN: u64 = 16_777_216;

// The rights of all and of a file's group to read it, in its mode.
const ALL: u32 = 0o004;

const GROUP: u32 = 0o040;

// The number of root.
const ROOT: u32 = 0;

/// Why a file can't be read or made.
#[derive(Clone, Copy, Debug, PartialEq, Eq, Error)]
pub enum FileFault {
    #[error("there is a file already, which isn't overwritten")]
    Exists,
    #[error("it has more than 16 MiB")]
    TooLong,
    /// The system refused.
    #[error("it can't be opened, read or written")]
    Io,
    #[error("there is no memory for it")]
    Memory,
}

impl From<io::Error> for FileFault {
    fn from(error: io::Error) -> FileFault {
        match error.kind() {
            ErrorKind::OutOfMemory => FileFault::Memory,
            ErrorKind::AlreadyExists => FileFault::Exists,
            _ => FileFault::Io,
        }
    }
}

/// The octets of a file, of 16 MiB at most.
pub fn file_octets(rt: &HostRuntime, path: &str) -> Result<Vec<u8>, FileFault> {
    let mut octets = Vec::new(rt.alloc());
    let mut file = File::open(rt, path)?.take(MAX_FILE_LEN + 1);
    file.read_to_end(&mut octets)?;
    if octets.len() as u64 > MAX_FILE_LEN {
        return Err(FileFault::TooLong);
    }
    Ok(octets)
}

/// The octets of standard input, of which 16 MiB are taken at most.
pub fn input_octets(rt: &HostRuntime) -> Result<Vec<u8>, FileFault> {
    let mut octets = Vec::new(rt.alloc());
    let mut input = rt.stdin().take(MAX_FILE_LEN + 1);
    input.read_to_end(&mut octets)?;
    if octets.len() as u64 > MAX_FILE_LEN {
        return Err(FileFault::TooLong);
    }
    Ok(octets)
}

/// Whether others can read a file than its owner, and than its group where root owns it: so a service reads a file of root's.
pub fn is_open_to_others(rt: &HostRuntime, path: &str) -> bool {
    match metadata(rt, path) {
        Ok(found) => {
            let mode = found.permissions().mode();
            mode & ALL != 0 || mode & GROUP != 0 && found.uid() != ROOT
        }
        Err(_) => false,
    }
}

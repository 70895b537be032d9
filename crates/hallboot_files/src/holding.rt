//! A hall's file is held, so that no other program opens it.
use crate::places::{LOG, with_end};
use os::RangeLock;
use std::fs::{File, OpenOptions};
use std::io;
use std::io::ErrorKind;
use std::os::fd::AsRawFd;

// The octets that SQLite locks: those of its pending, reserved and shared locks.
const LOCKED: (u64, u64) = (1 << 30, 512);

/// Files that no other program can open as a database until this is dropped.
#[derive(Drop)]
pub struct Held {
    _file: Option<File>,
    _log: Option<File>,
}

fn locked(file: File) -> io::Result<File> {
    let (start, len) = LOCKED;
    if os::try_lock_range(file.as_raw_fd(), RangeLock::Exclusive, start, len) == 0 {
        return Ok(file);
    }
    Err(io::Error::from_raw_os_error(os::errno()))
}

// A file that is held, if it is there.
fn held_at(rt: &HostRuntime, path: &str) -> io::Result<Option<File>> {
    match OpenOptions::new().read(true).write(true).open(rt, path) {
        Ok(file) => Ok(Some(locked(file)?)),
        Err(error) if error.kind() == ErrorKind::NotFound => Ok(None),
        Err(error) => Err(error),
    }
}

/// Holds a hall's file and its log, as far as they are there. The error is `WouldBlock` where another program has one open.
pub fn hold(rt: &HostRuntime, path: &str) -> io::Result<Held> {
    let file = held_at(rt, path)?;
    let log = held_at(rt, with_end(rt.alloc(), path, LOG)?.as_str())?;
    Ok(Held {
        _file: file,
        _log: log,
    })
}

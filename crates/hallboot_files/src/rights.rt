//! Who can use a file.
use crate::identity::FileIdentity;
use crate::places::{LOG, with_end};
use std::os::unix::fs::PermissionsExt;
use std::{fs, io};

// The rights of others than a file's owner, in its mode.
const OTHERS: u32 = 0o077;

fn is_open_to_others(rt: &HostRuntime, path: &str) -> bool {
    fs::metadata(rt, path).is_ok_and(|found| found.permissions().mode() & OTHERS != 0)
}

/// The hall's file, or else its log, if others than its owner can read or write it.
pub fn first_open_to_others(rt: &HostRuntime, path: &str) -> io::Result<Option<String>> {
    let identity = FileIdentity::at(rt, path)?;
    if is_open_to_others(rt, path) {
        return Ok(Some(String::from_str(rt.alloc(), path)?));
    }
    let log = with_end(rt.alloc(), identity.path(), LOG)?;
    Ok(is_open_to_others(rt, log.as_str()).then_some(log))
}

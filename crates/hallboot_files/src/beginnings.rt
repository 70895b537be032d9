//! What a file begins with: whether it is one of SQLite, or one whose making was cut off.
use crate::places::{LOG, with_end};
use std::fs::{self, File};
use std::io::Read;

// What each file of SQLite begins with (the file format of SQLite, section 1.3.1).
const MAGIC: &[u8; 16] = b"SQLite format 3\0";

// The maximum of octets of a log that has no transaction: its header, and the beginning of a frame.
const MAX_EMPTY_LOG: u64 = 41;

/// Whether something stands at a path that is no file of a disk, as a folder or a device.
pub fn is_no_file(rt: &HostRuntime, path: &str) -> bool {
    fs::metadata(rt, path).is_ok_and(|found| !found.is_file())
}

// Reads the first octets of a file: how many there are.
fn read_start(rt: &HostRuntime, path: &str, start: &mut [u8; 16]) -> Option<usize> {
    let mut file = File::open(rt, path).ok()?;
    file.read(start).ok()
}

/// Whether there is a file at a path that isn't one of SQLite. An empty one is one. Nothing is made beside it.
pub fn is_foreign(rt: &HostRuntime, path: &str) -> bool {
    if is_no_file(rt, path) {
        return true;
    }
    let mut start = [0; 16];
    let count = read_start(rt, path, &mut start).unwrap_or(0);
    count > 0 && start != *MAGIC
}

// Whether octets begin a file of which only the first octet is missing, which is written last, as 0.
fn lacks_first(start: &[u8; 16], count: usize) -> bool {
    let [first, ..] = start;
    let begins = start
        .iter()
        .zip(MAGIC)
        .skip(1)
        .all(|(here, magic)| here == magic);
    *first == 0 && (count == 1 || count == 16 && begins)
}

// Whether a file's log is missing or has no transaction.
fn has_empty_log(rt: &HostRuntime, path: &str) -> bool {
    let Ok(log) = with_end(rt.alloc(), path, LOG) else {
        return false;
    };
    fs::metadata(rt, log.as_str()).map_or(true, |found| found.len() <= MAX_EMPTY_LOG)
}

/// Whether the making of the file at a path was cut off: it is empty, or its first octet wasn't written yet, and no transaction is in its
/// log. No hall was ever in it.
pub fn is_unfinished(rt: &HostRuntime, path: &str) -> bool {
    if is_no_file(rt, path) || !has_empty_log(rt, path) {
        return false;
    }
    let mut start = [0; 16];
    let count = read_start(rt, path, &mut start);
    count.is_some_and(|count| count == 0 || lacks_first(&start, count))
}

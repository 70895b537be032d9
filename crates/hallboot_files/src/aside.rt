//! A hall's file is put aside, with what stands beside it.
use crate::places::{BESIDE, sync_folder, with_end};
use std::io::ErrorKind;
use std::{fs, io};

// Renames a file, if it is there: whether it was. Nothing is written over.
fn move_to(rt: &HostRuntime, from: &str, to: &str) -> io::Result<bool> {
    if fs::exists(rt, to)? {
        return Err(io::Error::from(ErrorKind::AlreadyExists));
    }
    match fs::rename(rt, from, to) {
        Ok(()) => Ok(true),
        Err(error) if error.kind() == ErrorKind::NotFound => Ok(false),
        Err(error) => Err(error),
    }
}

// Renames what stands beside a file: whether there was something.
fn move_beside(rt: &HostRuntime, from: &str, to: &str) -> io::Result<bool> {
    let mut has_moved = false;
    for end in BESIDE {
        let alloc = rt.alloc();
        let (from, to) = (with_end(alloc, from, end)?, with_end(alloc, to, end)?);
        has_moved |= move_to(rt, from.as_str(), to.as_str())?;
    }
    Ok(has_moved)
}

/// Gives a file and what stands beside it another name, and has that last: whether there was anything. The file goes first, so that
/// nothing that can be opened is at its path from then on; each of the others goes though the file isn't there.
pub fn put_aside(rt: &HostRuntime, path: &str, aside: &str) -> io::Result<bool> {
    let has_file = move_to(rt, path, aside)?;
    sync_folder(rt, path)?;
    let has_more = move_beside(rt, path, aside)?;
    sync_folder(rt, path)?;
    Ok(has_file || has_more)
}

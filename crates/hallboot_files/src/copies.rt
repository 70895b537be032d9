//! Copies of a hall's file, and new files in their places. A file is whole, and lasts, before it has its name.
use crate::identity::FileIdentity;
use crate::kept::Keeping;
use crate::moment::now_seconds;
use crate::places::{LOG, new_file, remove_beside, remove_with_beside, sync_folder, with_end};
use std::alloc::Global;
use std::fs::{self, File};
use std::io;
use std::io::{ErrorKind, Read};

/// How a hall's file and its log become one file.
pub trait Joining {
    /// Writes a file that has what the hall's file and its log have together, and that says of which moment it is: how many octets, or why
    /// not. Without a moment it says what the hall's file says.
    fn write(
        &self,
        alloc: Global,
        file: &[u8],
        log: &[u8],
        moment: Option<u32>,
        writer: &mut File,
    ) -> io::Result<u64>;
}

// The octets of a file to which nothing is written meanwhile.
fn octets_at(rt: &HostRuntime, path: &str) -> io::Result<Vec<u8>> {
    let mut octets = Vec::new(rt.alloc());
    let mut file = File::open(rt, path)?;
    file.read_to_end(&mut octets)?;
    Ok(octets)
}

// Those of its log, which may not be there.
fn log_beside(rt: &HostRuntime, db: &str) -> io::Result<Vec<u8>> {
    let path = with_end(rt.alloc(), db, LOG)?;
    match octets_at(rt, path.as_str()) {
        Err(error) if error.kind() == ErrorKind::NotFound => Ok(Vec::new(rt.alloc())),
        read => read,
    }
}

// Writes what a hall's file and its log have to a new file, and syncs it.
fn write<J: Joining>(
    rt: &HostRuntime,
    joining: &J,
    db: &str,
    moment: Option<u32>,
    mut copy: File,
) -> io::Result<u64> {
    let (file, log) = (octets_at(rt, db)?, log_beside(rt, db)?);
    let (alloc, file, log) = (rt.alloc(), file.as_slice(), log.as_slice());
    let octets = joining.write(alloc, file, log, moment, &mut copy)?;
    copy.sync_all()?;
    Ok(octets)
}

/// Writes a new file that has what a hall's file and its log have, as of a moment, and syncs it: how many octets. Nothing is left at its path
/// if that fails; where something was there, it is as it was.
pub fn write_copy<J: Joining>(
    rt: &HostRuntime,
    joining: &J,
    db: &str,
    moment: Option<u32>,
    path: &str,
) -> io::Result<u64> {
    let copy = new_file(rt, path)?;
    let written = write(rt, joining, db, moment, copy);
    if written.is_err() {
        remove_with_beside(rt, path);
    }
    written
}

fn replace(rt: &HostRuntime, new: &str, path: &str) -> io::Result<()> {
    remove_beside(rt, new)?;
    remove_beside(rt, path)?;
    sync_folder(rt, path)?;
    fs::rename(rt, new, path)?;
    sync_folder(rt, path)
}

/// Puts a file that is whole without its log in the place of the one at a path. What stands beside both goes first, so that no log of the
/// old one stands beside the new one. If that fails, the new file is removed.
pub fn put_in_place(rt: &HostRuntime, new: &str, path: &str) -> io::Result<()> {
    let replaced = replace(rt, new, path);
    if replaced.is_err() {
        remove_with_beside(rt, new);
    }
    replaced
}

// Whether a path is that of a hall's file or of its log.
fn is_of_hall(rt: &HostRuntime, db: &FileIdentity, path: &str) -> io::Result<bool> {
    let log = FileIdentity::at(rt, with_end(rt.alloc(), db.path(), LOG)?.as_str())?;
    let one = FileIdentity::at(rt, path)?;
    Ok(one.is_same(db) || one.is_same(&log))
}

/// Puts a whole copy of a hall's file and its log in the place of the copy before, of which is kept what is asked for: how many octets. What
/// fails before it has its place leaves that one as it is. What an earlier try has left goes. The error is `InvalidInput` where a file of the
/// hall's would be written.
pub fn copy<J: Joining>(
    rt: &HostRuntime,
    joining: &J,
    db: &str,
    path: &str,
    keeping: Keeping,
) -> io::Result<u64> {
    let new = with_end(rt.alloc(), path, ".new")?;
    let hall = FileIdentity::at(rt, db)?;
    if is_of_hall(rt, &hall, path)? || is_of_hall(rt, &hall, new.as_str())? {
        return Err(io::Error::from(ErrorKind::InvalidInput));
    }
    remove_with_beside(rt, new.as_str());
    let moment = now_seconds(rt);
    let octets = write_copy(rt, joining, hall.path(), moment, new.as_str())?;
    if let Err(error) = keeping.keep(rt, path) {
        remove_with_beside(rt, new.as_str());
        return Err(error);
    }
    put_in_place(rt, new.as_str(), path)?;
    keeping.remove_oldest(rt, path);
    Ok(octets)
}

//! The files beside a file of SQLite, by their names; and files that are made, removed and made to last in their folder.
use crate::identity::folder_of;
use std::alloc::Global;
use std::fs::{self, File, OpenOptions};
use std::io;
use std::io::ErrorKind;
use std::os::unix::fs::OpenOptionsExt;
use std::path::Path;

/// The end of the name of a file's log (the file format of SQLite, section 4).
pub const LOG: &str = "-wal";

/// The ends of the names of what may stand beside a file: its log, its journal (the file format of SQLite, section 3), and what SQLite's
/// own programs know of the log.
pub const BESIDE: [&str; 3] = [LOG, "-journal", "-shm"];

/// A path with an end added to its name.
pub fn with_end(alloc: Global, path: &str, end: &str) -> io::Result<String> {
    Ok(format!(in alloc; "{path}{end}")?)
}

// Read and written by its owner alone.
const OWNER_ONLY: u32 = 0o600;

/// A new file for its owner alone. The error is `AlreadyExists` where something has its name.
pub fn new_file(rt: &HostRuntime, path: &str) -> io::Result<File> {
    OpenOptions::new()
        .write(true)
        .create_new(true)
        .mode(OWNER_ONLY)
        .open(rt, path)
}

/// Syncs the folder of a path: what was made, renamed or removed there lasts.
pub fn sync_folder(rt: &HostRuntime, path: &str) -> io::Result<()> {
    File::open(rt, folder_of(Path::new(path)))?.sync_all()
}

// Removes a file, if it is there.
fn remove(rt: &HostRuntime, path: &str) -> io::Result<()> {
    match fs::remove_file(rt, path) {
        Err(error) if error.kind() == ErrorKind::NotFound => Ok(()),
        removed => removed,
    }
}

/// Removes what stands beside a file.
pub(crate) fn remove_beside(rt: &HostRuntime, path: &str) -> io::Result<()> {
    for end in BESIDE {
        remove(rt, with_end(rt.alloc(), path, end)?.as_str())?;
    }
    Ok(())
}

/// Removes a file that was begun, and what stands beside it, as far as that can be.
pub fn remove_with_beside(rt: &HostRuntime, path: &str) {
    let _ = remove_beside(rt, path);
    let _ = fs::remove_file(rt, path);
}

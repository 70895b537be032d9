//! Whether the file of a hall is still the one that was opened.
use crate::identity::{FileIdentity, Node};
use crate::places::{LOG, with_end};
use std::io::ErrorKind;
use std::{fs, io};

/// A file, and how many octets it has.
#[derive(Clone, Copy)]
struct Seen {
    node: Node,
    len: u64,
}

fn seen_at(rt: &HostRuntime, path: &str) -> io::Result<Seen> {
    let found = fs::metadata(rt, path)?;
    Ok(Seen {
        node: Node::of(&found),
        len: found.len(),
    })
}

// What is at a path now. None where the system can't say.
fn look_at(rt: &HostRuntime, path: &str) -> Option<Option<Seen>> {
    match seen_at(rt, path) {
        Ok(found) => Some(Some(found)),
        Err(error) if error.kind() == ErrorKind::NotFound => Some(None),
        Err(_) => None,
    }
}

/// A hall's file that is served, and its log. The file never gets shorter while it is served, and the log is never empty.
#[derive(Drop)]
pub struct ServedFile {
    log_path: String,
    file: Seen,
    log: Seen,
}

impl ServedFile {
    /// The file at a path and its log, which are open.
    pub fn at(rt: &HostRuntime, path: &str) -> io::Result<ServedFile> {
        let identity = FileIdentity::at(rt, path)?;
        let log_path = with_end(rt.alloc(), identity.path(), LOG)?;
        let (file, log) = (seen_at(rt, path)?, seen_at(rt, log_path.as_str())?);
        Ok(ServedFile {
            log_path,
            file,
            log,
        })
    }

    /// Whether another one is the same file.
    pub fn is_same(&self, other: &ServedFile) -> bool {
        self.file.node == other.file.node
    }

    // Whether the log isn't there any more, or another one, or was cut to nothing.
    fn has_lost_log(&self, rt: &HostRuntime) -> bool {
        match look_at(rt, self.log_path.as_str()) {
            Some(Some(found)) => found.node != self.log.node || found.len == 0,
            Some(None) => true,
            None => false,
        }
    }

    /// Whether there is no file at the path, or another one, or the file was cut, or its log is gone, is another one, or was cut to
    /// nothing. Where the system can't say, it counts as there.
    pub fn is_gone(&mut self, rt: &HostRuntime, path: &str) -> bool {
        match look_at(rt, path) {
            Some(Some(found)) if found.node == self.file.node && found.len >= self.file.len => {
                self.file = found;
                self.has_lost_log(rt)
            }
            Some(_) => true,
            None => false,
        }
    }
}

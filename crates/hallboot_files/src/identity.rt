//! Which file a path leads to.
use std::fs::Metadata;
use std::os::unix::fs::MetadataExt;
use std::path::{Path, PathBuf};
use std::{fs, io};

/// How many links in a row are followed, as Linux does.
const MAX_LINKS: usize = 40;

/// A file's device, and its number there.
#[derive(Clone, Copy, PartialEq, Eq)]
pub(crate) struct Node {
    device: u64,
    inode: u64,
}

impl Node {
    pub(crate) fn of(found: &Metadata) -> Node {
        Node {
            device: found.dev(),
            inode: found.ino(),
        }
    }
}

/// Which file a path leads to: by the path without links, and where there is a file also by its number, which all its names share.
#[derive(Drop)]
pub struct FileIdentity {
    path: String,
    node: Option<Node>,
}

// The path to which links at the last part lead, where nothing is at their end.
fn end_of_links(rt: &HostRuntime, path: &str) -> io::Result<PathBuf> {
    let mut at = PathBuf::from_str(rt.alloc(), path)?;
    for _ in 0..MAX_LINKS {
        let Ok(target) = fs::read_link(rt, at.as_path()) else {
            break;
        };
        at.pop();
        at.push(target.as_path())?;
    }
    Ok(at)
}

/// The folder of a path.
pub(crate) fn folder_of<'a>(path: Path<'a>) -> Path<'a> {
    match path.parent() {
        Some(folder) if !folder.as_str().is_empty() => folder,
        _ => Path::new("."),
    }
}

// The path without links of a file that isn't there. One whose folder isn't there either stays as it is.
fn unmade(rt: &HostRuntime, path: &str) -> io::Result<String> {
    let end = end_of_links(rt, path)?;
    let Some(name) = end.as_path().file_name() else {
        return Ok(String::from_str(rt.alloc(), path)?);
    };
    match fs::canonicalize(rt, folder_of(end.as_path())) {
        Ok(mut folder) => {
            folder.push(name)?;
            Ok(folder.into_string())
        }
        Err(_) => Ok(String::from_str(rt.alloc(), path)?),
    }
}

fn without_links(rt: &HostRuntime, path: &str) -> io::Result<String> {
    match fs::canonicalize(rt, path) {
        Ok(found) => Ok(found.into_string()),
        Err(_) => unmade(rt, path),
    }
}

impl FileIdentity {
    /// That of the file which opening a path would open or make. The error is want of memory.
    pub fn at(rt: &HostRuntime, path: &str) -> io::Result<FileIdentity> {
        Ok(FileIdentity {
            path: without_links(rt, path)?,
            node: fs::metadata(rt, path).ok().map(|found| Node::of(&found)),
        })
    }

    /// Whether both are one file.
    pub fn is_same(&self, other: &FileIdentity) -> bool {
        self.path == other.path || self.node.is_some() && self.node == other.node
    }

    /// The path without links.
    pub fn path(&self) -> &str {
        self.path.as_str()
    }
}

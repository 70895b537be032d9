//! Copies that are kept when a new one takes their place.
use crate::identity::folder_of;
use crate::moment::changed_name;
use crate::places::{sync_folder, with_end};
use std::path::Path;
use std::{fs, io};

/// What is kept of the copy that was there, once a new one takes its place.
#[derive(Clone, Copy)]
pub struct Keeping {
    /// It, with the end `.before` of its name.
    pub before: bool,
    /// So many copies, each with the moment of its last change at the end of its name.
    pub dated: u64,
}

// The end of the name of the copy that was there before a service.
const BEFORE: &str = ".before";

// Gives the file at a path another name too, in the place of what had that, unless there is none. It keeps its own until another file takes
// that.
fn keep_as(rt: &HostRuntime, path: &str, end: &str) -> io::Result<()> {
    let kept = with_end(rt.alloc(), path, end)?;
    let draft = with_end(rt.alloc(), kept.as_str(), ".new")?;
    let _ = fs::remove_file(rt, draft.as_str());
    fs::hard_link(rt, path, draft.as_str())?;
    fs::rename(rt, draft.as_str(), kept.as_str())?;
    sync_folder(rt, path)
}

// Whether the end of a name is a moment, as `.2026-09-21T14-13-20Z`.
fn is_moment(end: &str) -> bool {
    const FORM: &[u8] = b".0000-00-00T00-00-00Z";
    let octets = end.as_bytes();
    octets.len() == FORM.len()
        && octets.iter().zip(FORM).all(|(octet, form)| match form {
            b'0' => octet.is_ascii_digit(),
            _ => octet == form,
        })
}

// The ends of the names of the copies of a path that have a moment, the oldest first.
fn moments(rt: &HostRuntime, path: &str) -> io::Result<Vec<String>> {
    let alloc = rt.alloc();
    let mut found = Vec::new(alloc);
    let path = Path::new(path);
    let Some(name) = path.file_name() else {
        return Ok(found);
    };
    for entry in fs::read_dir(rt, folder_of(path))? {
        let entry = entry?;
        if let Some(end) = entry.file_name().strip_prefix(name)
            && is_moment(end)
        {
            found.push(String::from_str(alloc, end)?)?;
        }
    }
    found.sort()?;
    Ok(found)
}

impl Keeping {
    /// Keeps the file at a path, if there is one.
    pub(crate) fn keep(&self, rt: &HostRuntime, path: &str) -> io::Result<()> {
        if !fs::exists(rt, path)? {
            return Ok(());
        }
        if self.before {
            keep_as(rt, path, BEFORE)?;
        }
        if self.dated > 0 {
            keep_as(rt, path, changed_name(rt, path)?.as_str())?;
        }
        Ok(())
    }

    /// Removes the oldest copies that have a moment, as far as that can be, so that no more are left than are kept.
    pub(crate) fn remove_oldest(&self, rt: &HostRuntime, path: &str) {
        if self.dated == 0 {
            return;
        }
        let Ok(found) = moments(rt, path) else {
            return;
        };
        let count = found.len() as u64;
        for end in found.iter().take(count.saturating_sub(self.dated) as usize) {
            if let Ok(kept) = with_end(rt.alloc(), path, end.as_str()) {
                let _ = fs::remove_file(rt, kept.as_str());
            }
        }
    }
}

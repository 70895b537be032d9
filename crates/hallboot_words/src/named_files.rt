//! The files that a command line names, and those that come to stand beside them: each is another one.
use crate::backup::{FROM, TO};
use crate::common::DB;
use crate::failure::{Failure, because, fault_of};
use crate::import::{FILE, TOKEN_FILE};
use crate::serve::{BACKUP, LOG};
use command_rows::{OptionRow, Options};
use hall_report::Fault;
use hallboot_files::{FileIdentity, with_end};
use std::alloc::{AllocError, Global};
use std::io;

// A file alone.
const ALONE: &[&str] = &[""];

// A hall's file, and what may stand beside it.
const HALL: &[&str] = &["", "-wal", "-journal", "-shm"];

// A copy, the one that is being made, and what is removed beside both.
const COPY: &[&str] = &[
    "",
    "-wal",
    "-journal",
    "-shm",
    ".new",
    ".new-wal",
    ".new-journal",
    ".new-shm",
];

// A path of an option, and the ends of all files of its own.
#[derive(Clone, Copy)]
struct NamedFile<'a> {
    row: &'static OptionRow,
    path: &'a str,
    ends: &'static [&'static str],
}

// The options that name files, that of the hall first.
static NAMED: [(&OptionRow, &[&str]); 7] = [
    (DB, HALL),
    (LOG, ALONE),
    (BACKUP, COPY),
    (TO, COPY),
    (FROM, HALL),
    (FILE, ALONE),
    (TOKEN_FILE, ALONE),
];

// All files of a command line. A log at standard error is none.
fn named_files<'a>(options: &Options<'a>) -> Result<Vec<NamedFile<'a>>, AllocError> {
    let mut files = Vec::new(options.alloc());
    for (row, ends) in &NAMED {
        let (row, ends) = (*row, *ends);
        if let Some(path) = options.text(row)
            && (row.name != LOG.name || path != "-")
        {
            files.push(NamedFile { row, path, ends })?;
        }
    }
    Ok(files)
}

// The identity of each file of an option.
fn identities(rt: &HostRuntime, file: &NamedFile<'_>) -> io::Result<Vec<FileIdentity>> {
    let mut found = Vec::with_capacity(rt.alloc(), file.ends.len())?;
    for end in file.ends {
        let path = with_end(rt.alloc(), file.path, end)?;
        found.push(FileIdentity::at(rt, path.as_str())?)?;
    }
    Ok(found)
}

// Which file of an option is one of another option's.
fn clash_of(
    rt: &HostRuntime,
    one: &NamedFile<'_>,
    other: &NamedFile<'_>,
) -> io::Result<Option<(&'static str, &'static str)>> {
    let (ones, others) = (identities(rt, one)?, identities(rt, other)?);
    for (end, one) in one.ends.iter().zip(ones.as_slice()) {
        let mut others = other.ends.iter().zip(others.as_slice());
        if let Some((other_end, _)) = others.find(|other| one.is_same(other.1)) {
            return Ok(Some((*end, *other_end)));
        }
    }
    Ok(None)
}

fn clash_text(
    alloc: Global,
    one: &NamedFile<'_>,
    end: &str,
    other: &NamedFile<'_>,
    other_end: &str,
) -> Result<String, AllocError> {
    let (option, other_option) = (one.row.written(alloc)?, other.row.written(alloc)?);
    let (path, other_path) = (one.path, other.path);
    format!(in alloc;
        "{option}: {path}{end} is {other_path}{other_end} of {other_option}, and must be another file"
    )
}

fn check(rt: &HostRuntime, one: &NamedFile<'_>, other: &NamedFile<'_>) -> Result<(), Failure> {
    match clash_of(rt, one, other) {
        Ok(None) => Ok(()),
        Ok(Some((end, other_end))) => {
            let reason = clash_text(rt.alloc(), one, end, other, other_end);
            Err(because(Fault::BadInput, reason))
        }
        Err(error) => Err(Failure::from(fault_of(&error))),
    }
}

/// Each file that a command line names is another one. Links are followed, and names of one file are one.
pub(crate) fn check_files(rt: &HostRuntime, options: &Options<'_>) -> Result<(), Failure> {
    let files = named_files(options)?;
    for (at, one) in files.iter().enumerate() {
        for other in files.iter().take(at) {
            check(rt, one, other)?;
        }
    }
    Ok(())
}

//! What is done over a hall's file. It is closed at the end, whatever became of the task.
use desk_operations::Exit;
use hall_report::Fault;
use hall_store::HallStore;
use hallboot_files::{Joining, is_foreign, now_seconds, remove_with_beside, write_copy};
use hallboot_tasks::{HallSum, Suspended, carried_out, served, sum_of, tell};
use hallboot_words::{Serving, Task};
use sql_file::{Ended, FileFault, StoreTask, Unjoined, one_file, over};
use std::alloc::Global;
use std::fs::File;
use std::io::{self, ErrorKind, Write};
use std::ops::Range;

pub(crate) fn of_file(fault: FileFault) -> Fault {
    match fault {
        FileFault::NotEmpty => Fault::NotEmpty,
        FileFault::NotAHall => Fault::NotAHall,
        FileFault::OtherVersion => Fault::OtherVersion,
        FileFault::Unavailable => Fault::Unavailable,
    }
}

/// A file of something else isn't opened, so that no log is made beside it.
pub(crate) fn looked_at(rt: &HostRuntime, path: &str) -> Result<(), Fault> {
    if is_foreign(rt, path) {
        Err(Fault::Unavailable)
    } else {
        Ok(())
    }
}

/// How a hall's file and its log become one file.
pub(crate) struct Joined;

fn refused(unjoined: Unjoined) -> io::Error {
    match unjoined {
        Unjoined::NoDatabase => io::Error::from(ErrorKind::InvalidData),
        Unjoined::Memory => io::Error::from(ErrorKind::OutOfMemory),
    }
}

// Where a file of SQLite has its user version, which SQLite leaves to programs (the file format of SQLite, section 1.3).
const USER_VERSION: Range<usize> = 60..64;

impl Joining for Joined {
    // The moment is the file's user version, so that a copy of the copy has it too.
    fn write(
        &self,
        alloc: Global,
        file: &[u8],
        log: &[u8],
        moment: Option<u32>,
        writer: &mut File,
    ) -> io::Result<u64> {
        let one = one_file(alloc, file, log).map_err(refused)?;
        let octets = one.bytes();
        let (before, after) = (
            octets.get(..USER_VERSION.start),
            octets.get(USER_VERSION.end..),
        );
        match (moment, before, after) {
            (Some(moment), Some(before), Some(after)) => {
                writer.write_all(before)?;
                writer.write_all(&moment.to_be_bytes())?;
                writer.write_all(after)?;
            }
            _ => writer.write_all(octets)?,
        }
        Ok(octets.len() as u64)
    }
}

/// The hall's file, and a new one that is to have what it has.
#[derive(Clone, Copy)]
pub(crate) struct Copying<'a> {
    pub(crate) path: &'a str,
    pub(crate) new: &'a str,
}

/// What a look at a hall found: what it amounts to, and how many octets were written, if it was to be copied.
#[derive(Drop)]
pub(crate) struct Found {
    pub(crate) sum: Option<HallSum>,
    pub(crate) written: Option<io::Result<u64>>,
}

/// What is done over a hall's store: a task once, a look, or the turns that are left of a service are served.
#[derive(Drop)]
pub(crate) enum Doing<'a> {
    Once(Task),
    Look {
        copying: Option<Copying<'a>>,
        found: &'a mut Found,
    },
    Serve {
        serving: &'a Serving,
        suspended: &'a mut Suspended,
    },
}

// A task over the store of a hall's file.
#[derive(Drop)]
struct FileTask<'a> {
    rt: &'a HostRuntime,
    doing: Doing<'a>,
}

// Looks at a hall, whose file nothing is written to meanwhile. What an earlier try to copy it has left goes.
fn look<S: HallStore>(
    rt: &HostRuntime,
    store: &mut S,
    copying: Option<Copying<'_>>,
    found: &mut Found,
) -> Result<Exit, Fault> {
    found.sum = Some(sum_of(store)?);
    if let Some(Copying { path, new }) = copying {
        remove_with_beside(rt, new);
        found.written = Some(write_copy(rt, &Joined, path, now_seconds(rt), new));
    }
    Ok(Exit::Done)
}

impl<'a> StoreTask for FileTask<'a> {
    type Outcome = Result<Exit, Fault>;

    fn over<S: HallStore>(self, mut store: S) -> (Result<Exit, Fault>, S) {
        let doing = self.doing;
        match doing {
            Doing::Once(task) => carried_out(self.rt, store, task),
            Doing::Look { copying, found } => {
                let outcome = look(self.rt, &mut store, copying, found);
                (outcome, store)
            }
            Doing::Serve { serving, suspended } => {
                served(self.rt, store, serving, suspended, &Joined)
            }
        }
    }
}

/// Does something over a hall's file.
pub(crate) fn ended_over(
    rt: &HostRuntime,
    path: &str,
    doing: Doing<'_>,
) -> Result<Ended<Result<Exit, Fault>>, Fault> {
    looked_at(rt, path)?;
    over(rt, path, FileTask { rt, doing }).map_err(of_file)
}

/// What became of it. Where the file couldn't be closed, what was answered stands, and the user is told.
pub(crate) fn outcome_of<O: Drop>(
    rt: &HostRuntime,
    path: &str,
    is_json: bool,
    ended: Ended<O>,
) -> O {
    if ended.closing.is_err() {
        let words = format!(in rt.alloc();
            "{path} wasn't closed: what was answered is in it and in its log together"
        );
        tell(rt, is_json, words);
    }
    ended.outcome
}

/// Does something over a hall's file, and says what became of it.
pub(crate) fn over_file(rt: &HostRuntime, path: &str, doing: Doing<'_>) -> Result<Exit, Fault> {
    outcome_of(rt, path, false, ended_over(rt, path, doing)?)
}

//! Copies of a hall that isn't served, and halls that are put back from them.
use crate::over_file::{Copying, Doing, Found, Joined, over_file};
use desk_operations::{Exit, write_text};
use hall_report::Fault;
use hallboot_files::{
    FileIdentity, LOG, changed_at, copied_at, hold, now_text, put_aside, put_in_place,
    remove_with_beside, with_end, write_copy,
};
use hallboot_tasks::{HallSum, sum_text};
use hallboot_words::{Failure, HallCopy, because, refused};
use std::alloc::AllocError;
use std::fs::File;
use std::io::ErrorKind;
use std::{fs, io};

// What a hall amounts to, and how many octets its copy has, if one was wanted.
fn looked(
    rt: &HostRuntime,
    path: &str,
    copying: Option<Copying<'_>>,
) -> Result<(HallSum, u64), Failure> {
    let mut found = Found {
        sum: None,
        written: None,
    };
    let doing = Doing::Look {
        copying,
        found: &mut found,
    };
    over_file(rt, path, doing)?;
    let Found { sum, written } = found;
    let sum = sum.ok_or(Failure::from(Fault::Unavailable))?;
    match (written, copying) {
        (Some(Err(error)), Some(Copying { new, .. })) => Err(refused(rt, new, &error)),
        (Some(Ok(octets)), _) => Ok((sum, octets)),
        _ => Ok((sum, 0)),
    }
}

// What was done with a new file, which is removed where that failed.
fn kept<T: Drop>(rt: &HostRuntime, new: &str, done: Result<T, Failure>) -> Result<T, Failure> {
    if done.is_err() {
        remove_with_beside(rt, new);
    }
    done
}

// What a new copy amounts to. One that is no whole hall is removed.
fn copy_sum(rt: &HostRuntime, new: &str) -> Result<HallSum, Failure> {
    let (sum, _) = kept(rt, new, looked(rt, new, None))?;
    Ok(sum)
}

fn put(rt: &HostRuntime, new: &str, path: &str) -> Result<(), Failure> {
    put_in_place(rt, new, path).map_err(|error| refused(rt, path, &error))
}

// A path of its own beside another one.
fn path_with(rt: &HostRuntime, path: &str, end: &str) -> Result<String, Failure> {
    with_end(rt.alloc(), path, end).map_err(|error| refused(rt, path, &error))
}

fn without_links(rt: &HostRuntime, path: &str) -> Result<FileIdentity, Failure> {
    FileIdentity::at(rt, path).map_err(|error| refused(rt, path, &error))
}

fn print(rt: &HostRuntime, text: Result<String, AllocError>) -> Result<Exit, Failure> {
    write_text(&mut rt.stdout(), text?.as_str())?;
    Ok(Exit::Done)
}

// ---- backup

fn backed_up(rt: &HostRuntime, path: &str, new: &str, to: &str) -> Result<(HallSum, u64), Failure> {
    let (sum, octets) = looked(rt, path, Some(Copying { path, new }))?;
    if copy_sum(rt, new)? != sum {
        remove_with_beside(rt, new);
        return Err(because(
            Fault::Unavailable,
            format!(in rt.alloc(); "{new} didn't have what {path} has"),
        ));
    }
    put(rt, new, to)?;
    Ok((sum, octets))
}

/// Copies a hall that isn't served to one file, and says what it has. The copy before is replaced once the new one was found whole.
pub(crate) fn backup(rt: &HostRuntime, asked: &HallCopy) -> Result<Exit, Failure> {
    let (path, to) = (asked.path.as_str(), asked.copy.as_str());
    let hall = without_links(rt, path)?;
    let new = path_with(rt, to, ".new")?;
    let (sum, octets) = backed_up(rt, hall.path(), new.as_str(), to)?;
    let sum = sum_text(rt.alloc(), &sum)?;
    print(
        rt,
        format!(in rt.alloc(); "copied {path} to {to}, {octets} octets: {sum}\n"),
    )
}

// ---- restore

// A journal beside a copy isn't played back: SQLite's own program does that.
fn check_journal(rt: &HostRuntime, from: &str) -> Result<(), Failure> {
    let journal = path_with(rt, from, "-journal")?;
    match fs::metadata(rt, journal.as_str()) {
        Ok(found) if found.len() > 0 => Err(because(
            Fault::Unavailable,
            format!(in rt.alloc(); "{from} has a journal: open it with sqlite3 once, and close it"),
        )),
        _ => Ok(()),
    }
}

// The fault of a copy that can't be read as a database.
fn of_copy(rt: &HostRuntime, from: &str, error: &io::Error) -> Failure {
    match error.kind() {
        ErrorKind::NotFound => because(Fault::NotAHall, format!(in rt.alloc(); "{from}: {error}")),
        ErrorKind::InvalidData => because(
            Fault::NotAHall,
            format!(in rt.alloc(); "{from} is no whole file of SQLite"),
        ),
        _ => refused(rt, from, error),
    }
}

// A copy, and its log where there is one, can be opened.
fn check_copy(rt: &HostRuntime, from: &str) -> Result<(), Failure> {
    let _copy = File::open(rt, from).map_err(|error| of_copy(rt, from, &error))?;
    let log = path_with(rt, from, LOG)?;
    match File::open(rt, log.as_str()) {
        Err(error) if error.kind() != ErrorKind::NotFound => {
            Err(refused(rt, log.as_str(), &error))
        }
        _ => Ok(()),
    }
}

// Why a copy that can be opened wasn't written to a new file.
fn of_writing(rt: &HostRuntime, from: &str, new: &str, error: &io::Error) -> Failure {
    match error.kind() {
        ErrorKind::InvalidData | ErrorKind::IsADirectory => of_copy(rt, from, error),
        _ => refused(rt, new, error),
    }
}

// Writes what a copy has to a new file, and says what it amounts to.
fn taken(rt: &HostRuntime, from: &str, new: &str) -> Result<HallSum, Failure> {
    check_journal(rt, from)?;
    check_copy(rt, from)?;
    match write_copy(rt, &Joined, from, None, new) {
        Ok(_) => copy_sum(rt, new),
        Err(error) => Err(of_writing(rt, from, new, &error)),
    }
}

/// What the copy amounts to that is at a path where copies of a service are put; None where there is none that is whole. The copy stays as it is,
/// with nothing beside it.
pub(crate) fn sum_of_copy(rt: &HostRuntime, path: &str) -> Option<HallSum> {
    let new = with_end(rt.alloc(), path, ".new").ok()?;
    remove_with_beside(rt, new.as_str());
    let sum = taken(rt, path, new.as_str()).ok();
    remove_with_beside(rt, new.as_str());
    sum
}

// Puts a whole new file in the place of a hall that no program has open, and what was there aside: whether there was anything.
fn replaced(rt: &HostRuntime, path: &str, new: &str, aside: &str) -> Result<bool, Failure> {
    let _held = match hold(rt, path) {
        Ok(held) => held,
        Err(error) if error.kind() == ErrorKind::WouldBlock => {
            return Err(because(
                Fault::Unavailable,
                format!(in rt.alloc(); "another program has {path} open: stop serve first"),
            ));
        }
        Err(error) => return Err(refused(rt, path, &error)),
    };
    let was_there = put_aside(rt, path, aside).map_err(|error| refused(rt, path, &error))?;
    put(rt, new, path)?;
    Ok(was_there)
}

// Of which moment a hall is that was just restored: as the copy says, or when that was last changed.
fn moment_of(rt: &HostRuntime, path: &str, from: &str) -> io::Result<String> {
    match copied_at(rt, path)? {
        Some(moment) => Ok(moment),
        None => changed_at(rt, from),
    }
}

// The texts of what was restored, and of what was there.
fn restored_text(
    rt: &HostRuntime,
    path: &str,
    from: &str,
    sum: &HallSum,
    aside: Option<&str>,
) -> Result<String, AllocError> {
    let alloc = rt.alloc();
    let sum = sum_text(alloc, sum)?;
    let moment = match moment_of(rt, path, from) {
        Ok(moment) => moment,
        Err(_) => String::from_str(alloc, "an unknown moment")?,
    };
    let first = format!(in alloc; "restored {path} from {from} of {moment}: {sum}\n")?;
    match aside {
        Some(aside) => format!(in alloc; "{first}what was there is kept as {aside}\n"),
        None => Ok(first),
    }
}

/// Puts a copy of a hall in the place of its file, and says what it has. The copy stays as it is, and what was at the hall's path is kept
/// under a name with the moment. Nothing is changed where the copy is no whole hall, or another program has the hall open.
pub(crate) fn restore(rt: &HostRuntime, asked: &HallCopy) -> Result<Exit, Failure> {
    let (path, from) = (asked.path.as_str(), asked.copy.as_str());
    let (hall, copy) = (without_links(rt, path)?, without_links(rt, from)?);
    let now = now_text(rt).map_err(|error| refused(rt, "the clock", &error))?;
    let (hall, now) = (hall.path(), now.as_str());
    let new = path_with(rt, path_with(rt, hall, ".restored-")?.as_str(), now)?;
    let aside = path_with(rt, path_with(rt, hall, ".replaced-")?.as_str(), now)?;
    let sum = taken(rt, copy.path(), new.as_str())?;
    let replaced = replaced(rt, hall, new.as_str(), aside.as_str());
    let was_there = kept(rt, new.as_str(), replaced)?;
    let aside = was_there.then_some(aside.as_str());
    print(rt, restored_text(rt, path, from, &sum, aside))
}

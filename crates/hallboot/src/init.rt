//! The file of a new hall is made: under another name first, so that it is whole once it has its own.
use crate::over_file::{looked_at, of_file};
use desk_operations::Exit;
use hall_report::Fault;
use hallboot_files::{
    FileIdentity, LOG, is_unfinished, new_file, now_text, put_in_place, remove_with_beside,
    with_end,
};
use hallboot_words::{Failure, Init, because, refused};
use sql_file::create;
use std::{fs, io};

// Whether no hall can be at a path: nothing is there, or what an interrupted init left.
fn is_free(rt: &HostRuntime, path: &str) -> io::Result<bool> {
    Ok(!fs::exists(rt, path)? || is_unfinished(rt, path))
}

// A log that stands alone belongs to a hall that was here.
fn has_lone_log(rt: &HostRuntime, path: &str) -> io::Result<bool> {
    let log = with_end(rt.alloc(), path, LOG)?;
    Ok(!fs::exists(rt, path)? && fs::exists(rt, log.as_str())?)
}

// The name under which a file is made that is to stand at a path.
fn making_of(rt: &HostRuntime, path: &str) -> io::Result<String> {
    let now = now_text(rt)?;
    Ok(format!(in rt.alloc(); "{path}.init-{now}")?)
}

// Makes the tables of a new hall in a new file, and puts that at its path.
fn make(rt: &HostRuntime, path: &str, asked: &Init) -> Result<(), Failure> {
    let name = making_of(rt, path).map_err(|error| refused(rt, path, &error))?;
    let making = name.as_str();
    if let Err(error) = new_file(rt, making) {
        return Err(refused(rt, making, &error));
    }
    if let Err(fault) = create(rt, making, asked.admin, asked.digest) {
        remove_with_beside(rt, making);
        return Err(Failure::from(of_file(fault)));
    }
    put_in_place(rt, making, path).map_err(|error| refused(rt, path, &error))
}

fn made_at(rt: &HostRuntime, path: &str, asked: &Init) -> Result<(), Failure> {
    let is_free = is_free(rt, path).map_err(|error| refused(rt, path, &error))?;
    if has_lone_log(rt, path).map_err(|error| refused(rt, path, &error))? {
        let reason = format!(in rt.alloc();
            "{path}{LOG} is there without its file: restore a copy, or move it away"
        );
        return Err(because(Fault::NotEmpty, reason));
    }
    if is_free {
        return make(rt, path, asked);
    }
    // A file is there, and has no hall.
    looked_at(rt, path)?;
    create(rt, path, asked.admin, asked.digest).map_err(|fault| Failure::from(of_file(fault)))
}

/// Makes the file of a new hall, for its owner alone, and says so.
pub(crate) fn init(rt: &HostRuntime, asked: &Init) -> Result<Exit, Failure> {
    let path = asked.path.as_str();
    let identity = FileIdentity::at(rt, path).map_err(|error| refused(rt, path, &error))?;
    made_at(rt, identity.path(), asked)?;
    desk_operations::write_text(&mut rt.stdout(), "hall created\n")?;
    Ok(Exit::Done)
}

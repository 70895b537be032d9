//! The boot desk of a server hall: one DHCP frame, the hall's file, one request, the service, reports, import and export.
//! Without a word it answers the frame on standard input.
#![tactic(auto)]

mod init;
mod over_file;
mod restoring;
mod tasks;

use command_rows::{Options, Usage};
use desk_operations::Exit;
use hall_report::Fault;
use hallboot_tasks::tell_of_fault;
use hallboot_words::{Failure, Job, fault_of, has_json_errors, read, reason, wants_reason};
use std::io::{ErrorKind, IsTerminal};
use std::process::ExitCode;
use std::{env, io};
use tasks::carry_out;

// Why the words of the command line can't be read: one isn't UTF-8, or there is no memory.
fn fault_of_words(error: &io::Error) -> Fault {
    if error.kind() == ErrorKind::InvalidData {
        Fault::BadInput
    } else {
        fault_of(error)
    }
}

// The words of the command line.
fn given(rt: &HostRuntime) -> Result<Vec<String>, Fault> {
    let words = env::args(rt).map_err(|error| fault_of_words(&error))?;
    Ok(words.collect(rt.alloc())?)
}

// The exit status of a run, with its fault told on standard error.
fn status(rt: &HostRuntime, exit: Exit) -> u8 {
    if let Exit::Fault(fault) = exit {
        let _ = eprintln!(rt; "hallboot: {}", fault.name());
    }
    exit.status()
}

// The exit status where the words name nothing to be done, with what is said of them.
fn status_of_usage(rt: &HostRuntime, usage: &Usage) -> u8 {
    if usage.is_memory() {
        return status(rt, Exit::Fault(Fault::Memory));
    }
    usage.print(rt);
    usage.status()
}

// What a fault is about, where that is asked for, or people read it: as the task knows it, or by another look.
fn explained(rt: &HostRuntime, options: &Options<'_>, failure: Failure) -> Option<String> {
    if !wants_reason(options) && !rt.stderr().is_terminal() {
        return None;
    }
    match failure.reason {
        Some(known) => Some(known),
        None => reason(rt, options, failure.fault),
    }
}

// Tells a fault on standard error: its name, and in a second line what it is about, or both in an object where all lines are objects.
fn tell_failure(rt: &HostRuntime, options: &Options<'_>, failure: Failure) {
    let fault = failure.fault;
    let reason = explained(rt, options, failure);
    if has_json_errors(options) {
        tell_of_fault(rt, fault, reason.as_ref().map(|reason| reason.as_str()));
        return;
    }
    let _ = eprintln!(rt; "hallboot: {}", fault.name());
    if let Some(reason) = reason {
        let _ = eprintln!(rt; "hallboot: {reason}");
    }
}

fn status_of_task(rt: &HostRuntime, options: &Options<'_>) -> u8 {
    match Job::read(rt, options).and_then(|job| carry_out(rt, job)) {
        Ok(exit) => exit.status(),
        Err(failure) => {
            let status = Exit::Fault(failure.fault).status();
            tell_failure(rt, options, failure);
            status
        }
    }
}

fn run(rt: &HostRuntime, words: &[String]) -> u8 {
    match read(rt.alloc(), words) {
        Ok(options) => status_of_task(rt, &options),
        Err(usage) => status_of_usage(rt, &usage),
    }
}

fn main(rt: HostRuntime) -> ExitCode {
    match given(&rt) {
        Ok(words) => ExitCode::from(run(&rt, words.as_slice())),
        Err(fault) => ExitCode::from(status(&rt, Exit::Fault(fault))),
    }
}

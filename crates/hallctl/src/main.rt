//! The operator's client of a boot desk: what a command line asks of the desk is sent until it is answered.
#![tactic(auto)]

use command_rows::Wrong;
use hallctl_tasks::{Host, TaskFault, carry_out};
use hallctl_words::{Line, LineFault, Wish, completion, read};
use std::fmt::Display;
use std::process::ExitCode;
use std::{env, io};

// The exit status of a fault of the program or the system.
const FAULT: u8 = 1;

// The exit status of wrong usage.
const USAGE: u8 = 2;

/// Why the program ends before its task is done.
#[derive(Drop)]
enum EarlyEnd {
    /// The line asks for nothing, or for help.
    Line(LineFault),
    /// A word of the command line isn't UTF-8.
    NotText,
    /// The system's clock fails.
    Clock,
    Task(TaskFault),
}

impl EarlyEnd {
    // Prints the help, or why the program ends, and gives its exit status.
    fn report(&self, rt: &HostRuntime) -> u8 {
        match self {
            EarlyEnd::Line(LineFault::Usage(usage)) if !usage.is_memory() => {
                usage.print(rt);
                usage.status()
            }
            EarlyEnd::Line(LineFault::Wrong(Wrong::Text(line))) => report(rt, line.as_str(), USAGE),
            EarlyEnd::Line(_) => report(rt, TaskFault::Memory, FAULT),
            EarlyEnd::NotText => report(rt, "a word of the command line isn't UTF-8", USAGE),
            EarlyEnd::Clock => report(rt, "the system's clock fails", FAULT),
            EarlyEnd::Task(fault) => report(rt, *fault, FAULT),
        }
    }
}

fn report(rt: &HostRuntime, words: impl Display + Drop, status: u8) -> u8 {
    let _ = eprintln!(rt; "hallctl: {words}");
    status
}

// The words of the command line.
fn given(rt: &HostRuntime) -> io::Result<Vec<String>> {
    Ok(env::args(rt)?.collect(rt.alloc())?)
}

// Prints the completion of command lines for bash.
fn complete(rt: &HostRuntime) -> Result<u8, TaskFault> {
    let text = completion(rt.alloc()).map_err(|_| TaskFault::Memory)?;
    print!(rt; "{text}").map_err(|_| TaskFault::Output)?;
    Ok(0)
}

fn do_task(rt: &HostRuntime, line: &Line<'_>) -> Result<u8, EarlyEnd> {
    if matches!(line.wish, Wish::Completion) {
        return complete(rt).map_err(EarlyEnd::Task);
    }
    let mut host = Host::new(rt).ok_or(EarlyEnd::Clock)?;
    let end = carry_out(rt.alloc(), &mut host, line).map_err(EarlyEnd::Task)?;
    Ok(end.status())
}

fn run(rt: &HostRuntime) -> Result<u8, EarlyEnd> {
    let words = given(rt).map_err(|_| EarlyEnd::NotText)?;
    let line = read(rt.alloc(), words.as_slice()).map_err(EarlyEnd::Line)?;
    do_task(rt, &line)
}

fn main(rt: HostRuntime) -> ExitCode {
    match run(&rt) {
        Ok(status) => ExitCode::from(status),
        Err(early) => ExitCode::from(early.report(&rt)),
    }
}

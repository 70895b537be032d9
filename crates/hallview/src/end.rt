//! Why the program ends, and what it says then.
use crate::fault::ServeFault;
use command_rows::{Usage, Wrong};
use std::alloc::AllocError;
use std::fmt::Display;

// The exit status of a fault of the program, of a file or of the system.
const FAULT: u8 = 1;

// The exit status of wrong usage.
const USAGE: u8 = 2;

/// Why the program ends.
#[derive(Drop)]
pub(crate) enum End {
    /// The words are none of the command line's, or ask for help.
    Usage(Usage),
    /// An option isn't what it must be.
    Wrong(Wrong),
    /// A word of the command line isn't UTF-8.
    NotText,
    /// The halls, their desks or their tokens can't be had: why, in words.
    Halls(String),
    /// The line that says where pages are can't be written.
    Output,
    Serve(ServeFault),
}

impl From<Usage> for End {
    fn from(usage: Usage) -> End {
        End::Usage(usage)
    }
}

impl From<Wrong> for End {
    fn from(wrong: Wrong) -> End {
        End::Wrong(wrong)
    }
}

impl From<ServeFault> for End {
    fn from(fault: ServeFault) -> End {
        End::Serve(fault)
    }
}

impl From<AllocError> for End {
    fn from(_refused: AllocError) -> End {
        End::Serve(ServeFault::Memory)
    }
}

fn report(rt: &HostRuntime, words: impl Display + Drop, status: u8) -> u8 {
    let _ = eprintln!(rt; "hallview: {words}");
    status
}

impl End {
    /// Prints the help, or why the program ends, and gives its exit status.
    pub(crate) fn report(&self, rt: &HostRuntime) -> u8 {
        match self {
            End::Usage(usage) if !usage.is_memory() => {
                usage.print(rt);
                usage.status()
            }
            End::Wrong(Wrong::Text(line)) => report(rt, line.as_str(), USAGE),
            End::Usage(_) | End::Wrong(_) => report(rt, ServeFault::Memory, FAULT),
            End::NotText => report(rt, "a word of the command line isn't UTF-8", USAGE),
            End::Halls(words) => report(rt, words.as_str(), FAULT),
            End::Output => report(rt, "standard output can't be written", FAULT),
            End::Serve(fault) => report(rt, *fault, FAULT),
        }
    }
}

//! Words that can't be followed, and those that ask for help.
use clap::Error;
use clap::error::ErrorKind;

// The exit status of wrong usage.
const WRONG: u8 = 2;

/// Why the words of a command line name nothing to be done: a fault in them, a question for help, or want of memory.
#[derive(Drop)]
pub struct Usage {
    error: Error,
}

impl Usage {
    pub(crate) fn of(error: Error) -> Usage {
        Usage { error }
    }

    /// Whether there was no memory to read the words.
    pub fn is_memory(&self) -> bool {
        self.error.kind() == ErrorKind::OutOfMemory
    }

    /// Prints the help to standard output, or what is at fault to standard error.
    pub fn print<R: Print + Eprint>(&self, rt: &R) {
        let _ = self.error.print(rt);
    }

    /// The exit status: 2 for wrong usage, 0 for help.
    pub fn status(&self) -> u8 {
        if self.error.use_stderr() { WRONG } else { 0 }
    }
}

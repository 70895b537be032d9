//! What is written to the operator.
use crate::answer::Strange;
use crate::dial::Why;
use crate::end::{EarlyEnd, Step, TaskEnd, TaskFault};
use crate::session::Session;
use crate::surroundings::Surroundings;
use hall_types::Refusal;
use hallctl_requests::Ask;
use hallctl_texts::refusal_line;
use std::alloc::{AllocError, Global};
use std::fmt::Display;

// The milliseconds of a second.
const SECOND: u64 = 1_000;

/// The line on a first try in vain, after which there are more for so many milliseconds.
pub fn goes_on_text(
    alloc: Global,
    authority: &str,
    why: Why,
    milliseconds: u64,
) -> Result<String, AllocError> {
    let seconds = milliseconds.div_ceil(SECOND);
    format!(in alloc;
        "hallctl: no answer from http://{authority} ({why}), trying for {seconds} s\n"
    )
}

/// Writes a line to standard error, after the program's name.
pub(crate) fn report<S: Surroundings>(
    alloc: Global,
    surroundings: &mut S,
    line: impl Display + Drop,
) -> Result<(), AllocError> {
    let text = format!(in alloc; "hallctl: {line}\n")?;
    surroundings.eprint(text.as_str());
    Ok(())
}

/// Writes a text to standard output.
pub(crate) fn print<S: Surroundings>(surroundings: &mut S, text: &str) -> Step<()> {
    if surroundings.print(text) {
        Ok(())
    } else {
        Err(EarlyEnd::Fault(TaskFault::Output))
    }
}

impl<S: Surroundings> Session<'_, S> {
    /// Writes a text to standard output.
    pub(crate) fn print(&mut self, text: &str) -> Step<()> {
        print(self.surroundings, text)
    }

    /// Writes a line to standard output.
    pub(crate) fn print_line(&mut self, line: impl Display + Drop) -> Step<()> {
        let text = format!(in self.alloc; "{line}\n")?;
        self.print(text.as_str())
    }

    /// Writes a line to standard error, after the program's name.
    pub(crate) fn report(&mut self, line: impl Display + Drop) -> Result<(), AllocError> {
        report(self.alloc, self.surroundings, line)
    }

    /// Reports how many of several things are done, where somebody watches. What is printed next is written over it.
    pub(crate) fn report_progress(&mut self, done: usize, all: usize) -> Result<(), AllocError> {
        if self.surroundings.is_watched() {
            let end = if done == all { "\n" } else { "\r" };
            let text = format!(in self.alloc; "{done} of {all}{end}")?;
            self.surroundings.eprint(text.as_str());
        }
        Ok(())
    }

    /// Reports a line, and ends the task so.
    pub(crate) fn end<T>(&mut self, end: TaskEnd, line: impl Display + Drop) -> Step<T> {
        self.report(line)?;
        Err(EarlyEnd::Reported(end))
    }

    /// A file can't be read or made, or isn't what it must be, for this reason.
    pub(crate) fn end_by_file<T>(&mut self, path: &str, cause: impl Display + Drop) -> Step<T> {
        self.end(TaskEnd::Misused, format_args!("{path}: {cause}"))
    }

    /// There was no answer to what was only to be read.
    pub(crate) fn end_unanswered<T>(&mut self, why: Why) -> Step<T> {
        self.end(TaskEnd::NoAnswer, format_args!("no answer ({why})"))
    }

    /// The desk doesn't give what was only to be read, for this cause.
    pub(crate) fn end_refused<T>(&mut self, refusal: Refusal) -> Step<T> {
        let line = refusal_line(self.alloc, None, refusal)?;
        self.end(TaskEnd::Refused, line)
    }

    /// What is known of a desk that isn't one, with the URL that was asked.
    pub(crate) fn strange_text(
        &self,
        ask: &Ask<'_>,
        strange: Strange,
    ) -> Result<String, AllocError> {
        let url = self.desk.url(self.alloc, ask)?;
        let text = strange.text(self.alloc)?;
        format!(in self.alloc; "this isn't the desk: {url} {text}")
    }

    /// What answers isn't the desk.
    pub(crate) fn end_by_stranger<T>(&mut self, ask: &Ask<'_>, strange: Strange) -> Step<T> {
        let line = self.strange_text(ask, strange)?;
        self.end(TaskEnd::NoAnswer, line)
    }
}

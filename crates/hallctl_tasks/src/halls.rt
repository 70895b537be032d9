//! A look at the desk of each hall of a file.
use crate::answer::Answer;
use crate::desk::{Desk, Heard};
use crate::desk_fault::DeskFault;
use crate::end::{EarlyEnd, Step, TaskEnd, TaskFault};
use crate::finding::Finding;
use crate::hall_lines::{HallLine, hall_json, hall_table};
use crate::output::print;
use crate::session::Session;
use crate::surroundings::Surroundings;
use hall_types::Refusal;
use hallctl_requests::Ask;
use hallctl_texts::{DeskAnswer, state_at, value_of};
use halls_file::HallEntry;
use serde_json::Value;
use std::alloc::{AllocError, Global};
use std::fmt::Display;

/// The machines of a hall, and how many of them are in failure.
#[derive(Clone, Copy)]
pub(crate) struct Counts {
    pub(crate) machines: usize,
    pub(crate) failed: usize,
}

/// What a look at a hall's desk has shown.
#[derive(Drop)]
pub(crate) enum Shown {
    Machines(Counts),
    /// The desk is there, and its machines aren't for this token's role.
    Unlisted,
    /// The desk isn't there, or doesn't know the token, for this reason.
    Nothing(String),
}

fn nothing(alloc: Global, cause: impl Display + Drop) -> Result<Shown, AllocError> {
    Ok(Shown::Nothing(format!(in alloc; "{cause}")?))
}

// Whether a machine is in failure, of one that is listed.
fn has_failed(machine: &Value) -> Option<bool> {
    Some(state_at(machine)?.status.is_failure())
}

fn counts_in(list: &Value) -> Option<Counts> {
    let machines = list.get("machines")?.as_array()?;
    let mut failed: usize = 0;
    for machine in machines.as_slice() {
        if has_failed(machine)? {
            failed = failed.saturating_add(1);
        }
    }
    Some(Counts {
        machines: machines.len(),
        failed,
    })
}

fn counted(alloc: Global, answer: &Answer) -> Result<Shown, AllocError> {
    let Some(list) = value_of(alloc, answer.body())? else {
        return nothing(alloc, "not the desk");
    };
    match counts_in(&list) {
        Some(counts) => Ok(Shown::Machines(counts)),
        None => nothing(alloc, "not the desk"),
    }
}

fn push(lines: &mut Vec<HallLine>, line: HallLine) -> Result<(), AllocError> {
    lines.push(line)?;
    Ok(())
}

impl<S: Surroundings> Session<'_, S> {
    // What the desk says of its machines.
    fn shown(&mut self) -> Step<Shown> {
        self.surroundings.count_anew();
        let heard = self.ask(&Ask::Machines)?;
        Ok(match heard {
            Heard::Said(DeskAnswer::Refused(Refusal::RoleNeeded), _) => Shown::Unlisted,
            Heard::Said(DeskAnswer::Refused(refusal), _) => nothing(self.alloc, refusal.name())?,
            Heard::Said(_, answer) => counted(self.alloc, &answer)?,
            Heard::NotTheDesk(_) => nothing(self.alloc, "not the desk")?,
            Heard::Unknown(why) | Heard::Unsent(why) => nothing(self.alloc, why)?,
        })
    }
}

impl<S: Surroundings> Finding<'_, S> {
    fn shown_at(&mut self, desk: &Desk) -> Step<Shown> {
        self.surroundings.turn_to(self.alloc, &desk.address)?;
        let mut session = Session {
            alloc: self.alloc,
            surroundings: self.surroundings,
            desk,
            line: self.line,
        };
        session.shown()
    }

    fn shown_of(&mut self, path: &str, entry: &HallEntry) -> Step<Shown> {
        match self.desk_of_entry(path, entry) {
            Ok(desk) => self.shown_at(&desk),
            Err(DeskFault::Memory) => Err(EarlyEnd::Fault(TaskFault::Memory)),
            Err(fault) => Ok(nothing(self.alloc, fault)?),
        }
    }

    // A line for each hall, in the order of their names.
    fn lines(&mut self, path: &str, entries: &[HallEntry]) -> Step<Vec<HallLine>> {
        let mut lines = Vec::new(self.alloc);
        for entry in entries {
            let shown = self.shown_of(path, entry)?;
            push(&mut lines, HallLine::new(self.alloc, entry, &shown)?)?;
        }
        Ok(lines)
    }

    /// Prints of each hall of the file of halls whether its desk is there, and how many machines it has.
    pub(crate) fn look_at_halls(&mut self) -> Step<TaskEnd> {
        let path = self.halls_path()?;
        let entries = self.entries(path.as_str())?;
        let lines = self.lines(path.as_str(), entries.as_slice())?;
        let text = if self.line.json {
            hall_json(self.alloc, lines.as_slice())?
        } else {
            hall_table(self.alloc, lines.as_slice())?
        };
        print(self.surroundings, text.as_str())?;
        Ok(if lines.iter().all(|line| line.is_up) {
            TaskEnd::Done
        } else {
            TaskEnd::NoAnswer
        })
    }
}

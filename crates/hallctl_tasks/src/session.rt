//! A command line is carried out.
use crate::desk::Desk;
use crate::end::{EarlyEnd, Step, TaskEnd, TaskFault};
use crate::finding::Finding;
use crate::output::print;
use crate::surroundings::Surroundings;
use hallctl_words::{Line, Wish};
use std::alloc::Global;

/// A command line, the desk that it asks, and what is about it. Each verb stands in the file of what it is about: `ask` in desk.rt,
/// `send` in sending.rt.
#[derive(Drop)]
pub(crate) struct Session<'a, S> {
    pub(crate) alloc: Global,
    pub(crate) surroundings: &'a mut S,
    pub(crate) desk: &'a Desk,
    pub(crate) line: &'a Line<'a>,
}

impl<S: Surroundings> Session<'_, S> {
    // Does what the line asks of the desk.
    fn carry_out(&mut self) -> Step<TaskEnd> {
        let line = self.line;
        if line.dry_run {
            return self.tell();
        }
        match &line.wish {
            Wish::List(listing) => self.list(listing),
            Wish::Answer { order, outcome } => self.answer_order(*order, *outcome),
            Wish::Hello => self.greet(),
            Wish::Change(commands) => self.change(commands.as_slice()),
            Wish::NewOperator(new) => self.add_operator(new),
            Wish::Wait(waited) => self.wait(waited, line.timeout),
            Wish::Import(path) => self.import(path),
            Wish::Halls | Wish::Completion => Ok(TaskEnd::Done),
        }
    }
}

impl<S: Surroundings> Finding<'_, S> {
    fn ask_desk(&mut self) -> Step<TaskEnd> {
        let desk = self.desk()?;
        self.surroundings.turn_to(self.alloc, &desk.address)?;
        let mut session = Session {
            alloc: self.alloc,
            surroundings: self.surroundings,
            desk: &desk,
            line: self.line,
        };
        session.carry_out()
    }

    fn carry_out(&mut self) -> Step<TaskEnd> {
        match self.line.wish {
            Wish::Halls if self.line.dry_run => {
                print(self.surroundings, "GET /machines of each hall\n")?;
                Ok(TaskEnd::Done)
            }
            Wish::Halls => self.look_at_halls(),
            Wish::Completion => Ok(TaskEnd::Done),
            _ => self.ask_desk(),
        }
    }
}

/// Does what a line asks, of the desk that it or the environment names, and says how it ended. The completion of the shell is asked of no
/// desk, and printed by the program.
pub fn carry_out<S: Surroundings>(
    alloc: Global,
    surroundings: &mut S,
    line: &Line<'_>,
) -> Result<TaskEnd, TaskFault> {
    let mut finding = Finding {
        alloc,
        surroundings,
        line,
    };
    match finding.carry_out() {
        Ok(end) | Err(EarlyEnd::Reported(end)) => Ok(end),
        Err(EarlyEnd::Fault(fault)) => Err(fault),
    }
}

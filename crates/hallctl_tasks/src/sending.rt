//! One command is sent until it is answered.
use crate::answer::Answer;
use crate::desk::Heard;
use crate::end::{Step, TaskEnd};
use crate::keys::key_text;
use crate::looks::Before;
use crate::session::Session;
use crate::surroundings::Surroundings;
use hall_events::HallCommand;
use hall_types::{Refusal, RequestKey, Status};
use hallctl_requests::Ask;
use hallctl_texts::{
    DeskAnswer, MachineState, deleted_line, done_line, refusal_line, state_line, subject,
    version_of,
};
use std::alloc::{AllocError, Global};

/// A command that is to be sent.
#[derive(Clone, Copy)]
pub(crate) struct Sending<'c> {
    pub(crate) key: RequestKey,
    pub(crate) command: &'c HallCommand,
    /// The machine as it was listed before, where it was.
    pub(crate) before: Option<Before>,
    /// What may be done in place of saying it again with its key, where something may.
    pub(crate) instead: &'static str,
}

impl<'c> Sending<'c> {
    // What is asked of the desk.
    fn ask(&self) -> Ask<'c> {
        Ask::Command {
            key: self.key,
            command: self.command,
        }
    }

    // How the command is said again: with its key, and the version that it has.
    fn again(&self, alloc: Global) -> Result<String, AllocError> {
        let key = key_text(alloc, self.key)?;
        let instead = self.instead;
        match version_of(self.command) {
            Some(version) => {
                let version = version.get();
                format!(in alloc; "--key {key} --version {version}{instead}")
            }
            None => format!(in alloc; "--key {key}{instead}"),
        }
    }

    // The machine's status just before it was changed: it is that of the listing only if nothing else has changed it since.
    fn status_before(&self, state: &MachineState) -> Option<Status> {
        let before = self.before?;
        (state.version.get() == before.version.get().saturating_add(1)).then_some(before.status)
    }

    // The line of what the desk says of the command.
    fn answered_line(&self, alloc: Global, said: &DeskAnswer) -> Result<String, AllocError> {
        match said {
            DeskAnswer::Done | DeskAnswer::Listed | DeskAnswer::Counted | DeskAnswer::Repeated =>
                done_line(alloc, self.command),
            DeskAnswer::Deleted(machine) => deleted_line(alloc, *machine),
            DeskAnswer::Machine(state) => self.machine_line(alloc, state),
            DeskAnswer::Refused(refusal) => refusal_line(alloc, Some(self.command), *refusal),
        }
    }

    // The line of a machine that was changed, or of a new one with its address.
    fn machine_line(&self, alloc: Global, state: &MachineState) -> Result<String, AllocError> {
        let line = state_line(alloc, self.status_before(state), state)?;
        match self.command {
            HallCommand::AddMachine { mac, .. } => {
                let mac = pxe_vendor::print_mac(alloc, &mac.octets())?;
                format!(in alloc; "{line}, {mac}")
            }
            _ => Ok(line),
        }
    }

    // The desk's object that refuses the command, with the command's key and its machine beside what the desk says.
    fn refused_json(&self, alloc: Global, text: &str) -> Result<String, AllocError> {
        let key = key_text(alloc, self.key)?;
        let said = text.strip_suffix('}').unwrap_or(text);
        match self.command {
            HallCommand::OnMachine { machine, .. } => {
                let machine = machine.get();
                format!(in alloc; "{said},\"key\":\"{key}\",\"machine\":{machine}}}")
            }
            _ => format!(in alloc; "{said},\"key\":\"{key}\"}}"),
        }
    }
}

impl<S: Surroundings> Session<'_, S> {
    // Prints the line of a command that ends so without an answer, for this cause: beside the desk's JSON it goes to standard error.
    fn print_unanswered(
        &mut self,
        sending: &Sending<'_>,
        end: TaskEnd,
        cause: &str,
    ) -> Step<TaskEnd> {
        let about = subject(self.alloc, sending.command)?;
        let again = sending.again(self.alloc)?;
        let line = format!(in self.alloc; "{about}: {cause} with {again}")?;
        if self.line.json {
            self.report(line)?;
        } else {
            self.print_line(line)?;
        }
        Ok(end)
    }

    // Prints that it isn't known whether a command was done, for this cause.
    fn print_open(&mut self, sending: &Sending<'_>, cause: &str) -> Step<TaskEnd> {
        let cause = format!(in self.alloc;
            "{cause}; it isn't known whether this was done. Say it again"
        )?;
        self.print_unanswered(sending, TaskEnd::NoAnswer, cause.as_str())
    }

    // Prints why the desk refuses a command, and what helps.
    fn print_refused(
        &mut self,
        sending: &Sending<'_>,
        refusal: Refusal,
        answer: &Answer,
    ) -> Step<TaskEnd> {
        match answer.text() {
            Some(text) if self.line.json => {
                self.print_line(sending.refused_json(self.alloc, text)?)?;
            }
            _ => {
                let line = refusal_line(self.alloc, Some(sending.command), refusal)?;
                match self.help(sending, refusal)? {
                    Some(help) => self.print_line(format_args!("{line}. {help}"))?,
                    None => self.print_line(line)?,
                }
            }
        }
        Ok(TaskEnd::Refused)
    }

    // Prints what the desk says of a command, as it came or as a line.
    fn print_answer(
        &mut self,
        sending: &Sending<'_>,
        said: &DeskAnswer,
        answer: &Answer,
    ) -> Step<TaskEnd> {
        if let DeskAnswer::Refused(refusal) = said {
            return self.print_refused(sending, *refusal, answer);
        }
        match answer.text() {
            Some(text) if self.line.json => self.print_line(text)?,
            _ => {
                let line = sending.answered_line(self.alloc, said)?;
                self.print_line(line)?;
            }
        }
        Ok(TaskEnd::Done)
    }

    fn send_noted(&mut self, sending: &Sending<'_>) -> Step<TaskEnd> {
        let ask = sending.ask();
        match self.ask(&ask)? {
            Heard::Said(said, answer) => self.print_answer(sending, &said, &answer),
            Heard::NotTheDesk(strange) => {
                let cause = self.strange_text(&ask, strange)?;
                self.print_open(sending, cause.as_str())
            }
            Heard::Unknown(why) => {
                let cause = format!(in self.alloc; "no answer ({why})")?;
                self.print_open(sending, cause.as_str())
            }
            Heard::Unsent(why) => {
                let cause = format!(in self.alloc; "not done ({why}): say it again")?;
                self.print_unanswered(sending, TaskEnd::Unsent, cause.as_str())
            }
        }
    }

    /// Sends a command until it is answered, and prints its line. Its key is noted before the first try: where that fails, nothing is
    /// sent.
    pub(crate) fn send(&mut self, sending: &Sending<'_>) -> Step<TaskEnd> {
        let note = sending.note(self.alloc)?;
        if !self.note(note.as_str())? {
            return Ok(TaskEnd::Misused);
        }
        let end = self.send_noted(sending)?;
        self.note_end(note.as_str(), end)?;
        Ok(end)
    }
}

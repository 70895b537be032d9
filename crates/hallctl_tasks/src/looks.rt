//! Machines are looked at before something is done that can't be undone, and the operator is asked.
use crate::answer::Answer;
use crate::desk::Heard;
use crate::end::{Step, TaskEnd};
use crate::session::Session;
use crate::surroundings::Surroundings;
use hall_events::HallCommand;
use hall_types::{Number, Refusal, Status, Version};
use hallctl_requests::Ask;
use hallctl_texts::{
    DeskAnswer, ListedMachine, is_dangerous, refusal_line, total_text, version_of, warning,
};
use std::alloc::AllocError;

/// A machine as it was listed before a command.
#[derive(Clone, Copy)]
pub(crate) struct Before {
    pub(crate) status: Status,
    pub(crate) version: Version,
}

/// What comes of the look before a command.
#[derive(Clone, Copy)]
pub(crate) enum Look {
    /// None was needed.
    Unneeded,
    /// The machine was listed so.
    Listed(Before),
    /// The desk refused to list it: nothing is sent for it.
    Refused,
}

fn before_of(machine: ListedMachine) -> Before {
    Before {
        status: machine.status,
        version: machine.version,
    }
}

// The machine of a command, if it has one.
fn machine_of(command: &HallCommand) -> Option<Number> {
    match command {
        HallCommand::OnMachine { machine, .. } => Some(*machine),
        _ => None,
    }
}

fn push(looks: &mut Vec<Look>, look: Look) -> Result<(), AllocError> {
    looks.push(look)?;
    Ok(())
}

// How many machines were listed, and how many of these as Deployed.
fn count(looks: &[Look]) -> (usize, usize) {
    let (mut listed, mut deployed) = (0_usize, 0_usize);
    for look in looks {
        if let Look::Listed(before) = look {
            listed = listed.saturating_add(1);
            if before.status == Status::Deployed {
                deployed = deployed.saturating_add(1);
            }
        }
    }
    (listed, deployed)
}

impl<S: Surroundings> Session<'_, S> {
    /// The machine that an answer lists. One that lists none isn't the desk's.
    pub(crate) fn listed_machine(&mut self, ask: &Ask<'_>, answer: &Answer) -> Step<ListedMachine> {
        match answer.machine(self.alloc)? {
            Some(machine) => Ok(machine),
            None => self.end_by_stranger(ask, answer.strange()),
        }
    }

    /// The machine of a command as one look shows it, which is asked for once: if it shows nothing, the command is sent all the same. There
    /// is none where the answer is printed as it is, or is that of a command that was sent before.
    pub(crate) fn glance(&mut self, command: &HallCommand) -> Step<Option<Before>> {
        if self.line.json || self.line.key.is_some() {
            return Ok(None);
        }
        let Some(machine) = machine_of(command) else {
            return Ok(None);
        };
        match self.ask_in_passing(&Ask::Machine(machine))? {
            Heard::Said(DeskAnswer::Listed, answer) => {
                Ok(answer.machine(self.alloc)?.map(before_of))
            }
            _ => Ok(None),
        }
    }

    // Reports what a command would do to a machine that the desk has listed.
    fn warn(&mut self, command: &HallCommand, machine: ListedMachine) -> Step<Look> {
        if let Some(line) = warning(self.alloc, command, &machine)? {
            self.report(line)?;
        }
        Ok(Look::Listed(before_of(machine)))
    }

    // Prints the line of a machine that the desk refuses to list.
    fn print_refusal(&mut self, command: &HallCommand, refusal: Refusal) -> Step<Look> {
        let line = refusal_line(self.alloc, Some(command), refusal)?;
        self.print_line(line)?;
        Ok(Look::Refused)
    }

    // Asks the desk for a machine, and reports what the command would do to it. Nothing is sent yet.
    fn look_at(&mut self, machine: Number, command: &HallCommand) -> Step<Look> {
        let ask = Ask::Machine(machine);
        match self.ask(&ask)? {
            Heard::Said(DeskAnswer::Refused(refusal), _) => self.print_refusal(command, refusal),
            Heard::Said(_, answer) => {
                let machine = self.listed_machine(&ask, &answer)?;
                self.warn(command, machine)
            }
            Heard::NotTheDesk(strange) => self.end_by_stranger(&ask, strange),
            Heard::Unknown(why) | Heard::Unsent(why) => self.end_unanswered(why),
        }
    }

    // The look before each command, until one isn't answered. There is none where a command does no harm.
    fn looks_at(&mut self, commands: &[HallCommand]) -> Step<Vec<Look>> {
        let mut looks = Vec::new(self.alloc);
        for command in commands {
            let look = match machine_of(command) {
                Some(machine) if is_dangerous(command) => self.look_at(machine, command)?,
                _ => Look::Unneeded,
            };
            push(&mut looks, look)?;
        }
        Ok(looks)
    }

    // Asks the operator, and ends the task where the operator doesn't agree.
    fn ask_operator(&mut self) -> Step<()> {
        if self.line.yes {
            return Ok(());
        }
        self.surroundings.eprint("Type yes: ");
        let is_agreed = self.surroundings.is_agreed(self.alloc);
        self.surroundings.count_anew();
        if is_agreed {
            return Ok(());
        }
        self.end(TaskEnd::Refused, "nothing was sent")
    }

    // Why commands of which one is dangerous can't be sent as the line says.
    fn misuse_of(&self, commands: &[HallCommand]) -> Option<&'static str> {
        if !self.line.yes && !self.surroundings.can_ask() {
            return Some(
                "this switches off, restarts, erases or deletes: say --yes where nobody can be asked",
            );
        }
        let mut commands = commands.iter();
        if self.line.key.is_some() && !commands.all(|command| version_of(command).is_some()) {
            return Some(
                "a command that switches off, restarts, erases or deletes is said again with its --key and its --version",
            );
        }
        None
    }

    // The looks before commands of which one is dangerous, after which the operator is asked.
    fn look_and_ask(&mut self, commands: &[HallCommand]) -> Step<Vec<Look>> {
        // What is said again may be done already, and its machine changed or gone: it was looked at when it was first said.
        if self.line.key.is_some() {
            self.report("this switches off, restarts, erases or deletes, and is said again")?;
            self.ask_operator()?;
            return Ok(Vec::new(self.alloc));
        }
        let looks = self.looks_at(commands)?;
        let (listed, deployed) = count(looks.as_slice());
        if listed > 1 {
            self.report(total_text(self.alloc, listed, deployed)?)?;
        }
        if listed > 0 {
            self.ask_operator()?;
        }
        Ok(looks)
    }

    /// The look before each command. Where one is dangerous, its machine's listing is read, what would be done to it is reported, and the
    /// operator is asked, unless that isn't wanted.
    pub(crate) fn look_before(&mut self, commands: &[HallCommand]) -> Step<Vec<Look>> {
        if !commands.iter().any(|command| is_dangerous(command)) {
            return Ok(Vec::new(self.alloc));
        }
        if let Some(reason) = self.misuse_of(commands) {
            return self.end(TaskEnd::Misused, reason);
        }
        self.look_and_ask(commands)
    }
}

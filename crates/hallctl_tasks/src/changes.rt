//! The commands of a line, one after another.
use crate::end::{Step, TaskEnd};
use crate::looks::{Before, Look};
use crate::sending::Sending;
use crate::session::Session;
use crate::surroundings::Surroundings;
use hall_events::{HallCommand, MachineCommand};
use hall_types::{Act, Status, Version};
use hallctl_texts::with_version;
use hallctl_words::{Waited, Which};
use std::alloc::AllocError;

// The command with the version of the machine's listing, where it has none of its own.
fn as_listed(command: &HallCommand, listed: Version) -> Option<HallCommand> {
    match command {
        HallCommand::OnMachine {
            machine,
            version,
            command,
        } => Some(with_version(
            HallCommand::OnMachine {
                machine: *machine,
                version: *version,
                command: *command,
            },
            listed,
        )),
        _ => None,
    }
}

// Notes the machine of a command that was done, and the status to which it leads.
fn note_goal(waited: &mut Waited, command: &HallCommand) -> Result<(), AllocError> {
    let Some((which, goal)) = goal_of(command) else {
        return Ok(());
    };
    waited.machines.push(which)?;
    if !waited.statuses.contains(&goal) {
        waited.statuses.push(goal)?;
    }
    Ok(())
}

// The machine of a command, and the status to which the command leads in the end, where it is one that can be waited for.
fn goal_of(command: &HallCommand) -> Option<(Which, Status)> {
    let HallCommand::OnMachine {
        machine,
        command,
        ..
    } = command
    else {
        return None;
    };
    let goal = match command {
        MachineCommand::Commission { .. }
        | MachineCommand::Release { .. }
        | MachineCommand::Act(Act::Test) => Status::Ready,
        MachineCommand::Deploy { .. } => Status::Deployed,
        MachineCommand::Act(Act::Rescue) => Status::Rescue,
        _ => return None,
    };
    Some((Which::Number(*machine), goal))
}

impl<S: Surroundings> Session<'_, S> {
    // Sends a command on a machine that was listed so, or that a glance is had of first.
    fn send_as(&mut self, command: &HallCommand, listed: Option<Before>) -> Step<TaskEnd> {
        let key = self.key()?;
        let before = match listed {
            Some(before) => Some(before),
            None => self.glance(command)?,
        };
        self.send(&Sending {
            key,
            command,
            before,
            instead: "",
        })
    }

    // Sends a command after the look at its machine.
    fn send_after(&mut self, look: Look, command: &HallCommand) -> Step<TaskEnd> {
        match look {
            Look::Unneeded => self.send_as(command, None),
            Look::Refused => Ok(TaskEnd::Refused),
            Look::Listed(before) => match as_listed(command, before.version) {
                Some(command) => {
                    let end = self.send_as(&command, Some(before));
                    drop(command);
                    end
                }
                None => self.send_as(command, Some(before)),
            },
        }
    }

    // Reports how many commands weren't sent, after one that was the last.
    fn report_unsent(&mut self, unsent: usize) -> Result<(), AllocError> {
        if unsent > 0 {
            self.report(format_args!("not sent: {unsent} more"))?;
        }
        Ok(())
    }

    // Sends the commands, each after the look at its machine. What is to be waited for is noted of those that are done.
    fn send_all(
        &mut self,
        commands: &[HallCommand],
        looks: &[Look],
        waited: &mut Waited,
    ) -> Step<TaskEnd> {
        let mut end = TaskEnd::Done;
        for (place, command) in commands.iter().enumerate() {
            let look = looks.get(place).copied().unwrap_or(Look::Unneeded);
            let one = self.send_after(look, command)?;
            end = end.and_then(one);
            if one == TaskEnd::Done {
                note_goal(waited, command)?;
            }
            let sent = place.saturating_add(1);
            if one.is_last() {
                self.report_unsent(commands.len().saturating_sub(sent))?;
                return Ok(end);
            }
            if commands.len() > 1 {
                self.report_progress(sent, commands.len())?;
            }
        }
        Ok(end)
    }

    /// Sends the commands of a line, and prints a line for each. Where one is dangerous, the machines are looked at first, and the
    /// operator is asked. A refused command is no reason not to send the others; one without an answer is. Where
    /// the line says so, the machines are waited for afterwards.
    pub(crate) fn change(&mut self, commands: &[HallCommand]) -> Step<TaskEnd> {
        let looks = self.look_before(commands)?;
        let mut waited = Waited {
            machines: Vec::new(self.alloc),
            statuses: Vec::new(self.alloc),
            despite_failures: false,
        };
        let end = self.send_all(commands, looks.as_slice(), &mut waited)?;
        match self.line.wait {
            Some(seconds) if !waited.machines.is_empty() && !end.is_last() => {
                let last = self.wait(&waited, seconds)?;
                Ok(end.and_then(last))
            }
            _ => Ok(end),
        }
    }
}

//! What helps against a refusal, as far as the desk shows it.
use crate::desk::Heard;
use crate::end::Step;
use crate::sending::Sending;
use crate::session::Session;
use crate::surroundings::Surroundings;
use hall_events::{HallCommand, MachineCommand};
use hall_types::{MacAddress, MachineUuid, Number, Refusal, Status};
use hallctl_requests::Ask;
use hallctl_texts::{DeskAnswer, allowed_text, holder_of, value_of};

// The address and the UUID that a command brings, on which another machine may be.
fn brought(command: &HallCommand) -> Option<(MacAddress, Option<MachineUuid>)> {
    match command {
        HallCommand::AddMachine { mac, uuid, .. } => Some((*mac, *uuid)),
        HallCommand::OnMachine {
            command: MachineCommand::AddInterface { mac },
            ..
        } => Some((*mac, None)),
        _ => None,
    }
}

impl<S: Surroundings> Session<'_, S> {
    // The status of a machine as it was listed before a command, or else as the desk lists it now.
    fn status_of(&mut self, sending: &Sending<'_>, machine: Number) -> Step<Option<Status>> {
        if let Some(before) = sending.before {
            return Ok(Some(before.status));
        }
        match self.ask_in_passing(&Ask::Machine(machine))? {
            Heard::Said(DeskAnswer::Listed, answer) => {
                Ok(answer.machine(self.alloc)?.map(|machine| machine.status))
            }
            _ => Ok(None),
        }
    }

    // The machine that has what a command brings, as far as the desk lists it.
    fn holder(&mut self, address: MacAddress, uuid: Option<MachineUuid>) -> Step<Option<Number>> {
        match self.ask_in_passing(&Ask::Machines)? {
            Heard::Said(DeskAnswer::Listed, answer) => match value_of(self.alloc, answer.body())? {
                Some(value) => Ok(holder_of(&value, address, uuid).ok().flatten()),
                None => Ok(None),
            },
            _ => Ok(None),
        }
    }

    fn help_by_status(&mut self, sending: &Sending<'_>) -> Step<Option<String>> {
        let HallCommand::OnMachine { machine, .. } = sending.command else {
            return Ok(None);
        };
        match self.status_of(sending, *machine)? {
            Some(status) => Ok(Some(allowed_text(self.alloc, status)?)),
            None => Ok(None),
        }
    }

    fn help_by_holder(&mut self, sending: &Sending<'_>) -> Step<Option<String>> {
        let Some((address, uuid)) = brought(sending.command) else {
            return Ok(None);
        };
        match self.holder(address, uuid)? {
            Some(machine) => {
                let machine = machine.get();
                Ok(Some(format!(in self.alloc; "Machine {machine} has it")?))
            }
            None => Ok(None),
        }
    }

    /// What helps against the refusal of a command, in a sentence without a full stop. Rows of a file aren't looked up one by one.
    pub(crate) fn help(&mut self, sending: &Sending<'_>, refusal: Refusal) -> Step<Option<String>> {
        match (refusal, sending.command) {
            (Refusal::WrongStatus, _) => self.help_by_status(sending),
            (Refusal::Taken, _) if sending.instead.is_empty() => self.help_by_holder(sending),
            (Refusal::NoPool | Refusal::NoOperator, HallCommand::Grant { .. }) => {
                let words = "The pool stands first: hallctl grant POOL OPERATOR";
                Ok(Some(String::from_str(self.alloc, words)?))
            }
            _ => Ok(None),
        }
    }
}

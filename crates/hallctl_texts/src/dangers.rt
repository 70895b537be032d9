//! Commands that erase disks, delete machines, or switch off or restart what may run on them.
ghost use Rattle.std.specs.Prelude.{◌≡◌};
ghost use Rattle.hallctl_texts.specs.Dangers.{is_dangerous, is_dangerous_on, unversioned, with_version};

use crate::listings::ListedMachine;
use hall_events::{HallCommand, MachineCommand};
use hall_types::{Act, Number, Version};
use std::alloc::{AllocError, Global};

fn is_dangerous_on(command: &MachineCommand) -> bool
    ensures { result ≡ is_dangerous_on command.now }
{
    matches!(
        command,
        MachineCommand::Delete
            | MachineCommand::Release { .. }
            | MachineCommand::Act(Act::Rescue | Act::ExitRescue)
    )
}

/// Whether a command deletes a machine, releases it, with its disks erased or not, or restarts it for a rescue or after one.
pub fn is_dangerous(command: &HallCommand) -> bool
    ensures { result ≡ is_dangerous command.now }
{
    matches!(command, HallCommand::OnMachine { command, .. } if is_dangerous_on(command))
}

/// The version that a command says.
pub fn version_of(command: &HallCommand) -> Option<Version> {
    match command {
        HallCommand::OnMachine { version, .. } => *version,
        _ => None,
    }
}

// The machine of a command that names no version, and what is done to it.
fn unversioned(command: &HallCommand) -> Option<(Number, MachineCommand)>
    ensures { result ≡ unversioned command.now }
{
    match command {
        HallCommand::OnMachine {
            machine,
            version: None,
            command,
        } => Some((*machine, *command)),
        _ => None,
    }
}

/// The command with the version that the machine must have, unless it has one.
pub fn with_version(command: HallCommand, version: Version) -> HallCommand
    ensures { result ≡ with_version command version }
{
    match unversioned(&command) {
        Some((machine, command)) => HallCommand::OnMachine {
            machine,
            version: Some(version),
            command,
        },
        None => command,
    }
}

// What a command will do, without the kind of erasing.
fn deed(command: &MachineCommand) -> Option<&'static str> {
    match command {
        MachineCommand::Delete => Some("it will be deleted"),
        MachineCommand::Release { erase: Some(_) } => Some("all of its disks will be erased, "),
        MachineCommand::Release { erase: None } => {
            Some("it will be switched off, its disks keep their data")
        }
        MachineCommand::Act(Act::Rescue) => {
            Some("it will be restarted, with the rescue system in place of its own")
        }
        MachineCommand::Act(Act::ExitRescue) => {
            Some("it will be restarted, and its rescue system ends")
        }
        _ => None,
    }
}

// The kind of erasing that a command asks for.
fn kind(command: &MachineCommand) -> &'static str {
    match command {
        MachineCommand::Release { erase: Some(erase) } => erase.text(),
        _ => "",
    }
}

// A machine with what a decision about it needs.
fn machine_text(alloc: Global, machine: &ListedMachine) -> Result<String, AllocError> {
    let (id, version) = (machine.id.get(), machine.version.get());
    let (status, pool) = (machine.status.text(), machine.pool);
    match machine.owner {
        Some(owner) => format!(in alloc;
            "machine {id} ({status}, pool {pool}, owner {owner}, version {version})"
        ),
        None => {
            format!(in alloc; "machine {id} ({status}, pool {pool}, no owner, version {version})")
        }
    }
}

/// A line without a line feed that says what a dangerous command will do to the machine that was listed: `machine 1 (Deployed, pool lab,
/// owner olga, version 7): all of its disks will be erased, full`. None for a command that isn't dangerous.
pub fn warning(
    alloc: Global,
    command: &HallCommand,
    machine: &ListedMachine,
) -> Result<Option<String>, AllocError> {
    let HallCommand::OnMachine { command, .. } = command else {
        return Ok(None);
    };
    let Some(deed) = deed(command) else {
        return Ok(None);
    };
    let (machine, kind) = (machine_text(alloc, machine)?, kind(command));
    Ok(Some(format!(in alloc; "{machine}: {deed}{kind}")?))
}

/// The line on several machines of which dangerous commands were looked at, without a line feed: `500 machines, 480 of them Deployed`.
pub fn total_text(alloc: Global, machines: usize, deployed: usize) -> Result<String, AllocError> {
    format!(in alloc; "{machines} machines, {deployed} of them Deployed")
}

//! What a command was about, and what it changed or why it was refused, in a line.
use crate::answers::MachineState;
use hall_events::HallCommand;
use hall_types::{Number, Refusal, Status};
use std::alloc::{AllocError, Global};

/// What a command is about, as `machine 1`, `pool lab`, `operator olga` or `image jammy`.
pub fn subject(alloc: Global, command: &HallCommand) -> Result<String, AllocError> {
    match command {
        HallCommand::OnMachine { machine, .. } => {
            let machine = machine.get();
            format!(in alloc; "machine {machine}")
        }
        HallCommand::AddMachine { mac, .. } => {
            let mac = pxe_vendor::print_mac(alloc, &mac.octets())?;
            format!(in alloc; "machine {mac}")
        }
        HallCommand::AddPool { pool } => format!(in alloc; "pool {pool}"),
        HallCommand::AddOperator { operator, .. }
        | HallCommand::DisableOperator { operator }
        | HallCommand::Grant { operator, .. } => format!(in alloc; "operator {operator}"),
        HallCommand::AddImage { image } => {
            let image = image.name();
            format!(in alloc; "image {image}")
        }
        HallCommand::DeleteImage { image } | HallCommand::SetLive { image } => {
            format!(in alloc; "image {image}")
        }
    }
}

/// A machine after a command, with its status before it if that is known and another one: `machine 1: Ready to Commissioning, version 2`.
pub fn state_line(
    alloc: Global,
    before: Option<Status>,
    state: &MachineState,
) -> Result<String, AllocError> {
    let (machine, after, version) = (state.id.get(), state.status.text(), state.version.get());
    match before {
        Some(before) if before != state.status => {
            let before = before.text();
            format!(in alloc; "machine {machine}: {before} to {after}, version {version}")
        }
        _ => format!(in alloc; "machine {machine}: {after}, version {version}"),
    }
}

/// The line of a machine that was deleted: `machine 1: deleted`.
pub fn deleted_line(alloc: Global, machine: Number) -> Result<String, AllocError> {
    let machine = machine.get();
    format!(in alloc; "machine {machine}: deleted")
}

// What a command that names one thing has done to it.
fn deed(command: &HallCommand) -> &'static str {
    match command {
        HallCommand::DisableOperator { .. } => "disabled",
        HallCommand::DeleteImage { .. } => "deleted",
        HallCommand::SetLive { .. } => "is live",
        _ => "added",
    }
}

/// The line of a command that was carried out and changed no machine: `pool lab added`, `operator olga is a member of pool lab`.
pub fn done_line(alloc: Global, command: &HallCommand) -> Result<String, AllocError> {
    let subject = subject(alloc, command)?;
    if let HallCommand::Grant { pool, .. } = command {
        return format!(in alloc; "{subject} is a member of pool {pool}");
    }
    let deed = deed(command);
    format!(in alloc; "{subject} {deed}")
}

/// A line without a line feed: `machine 1: WrongStatus: The machine's status has no such action`, or without what the command is about
/// where nothing was commanded.
pub fn refusal_line(
    alloc: Global,
    command: Option<&HallCommand>,
    refusal: Refusal,
) -> Result<String, AllocError> {
    let (name, sentence) = (refusal.name(), refusal.sentence());
    match command {
        Some(command) => {
            let subject = subject(alloc, command)?;
            format!(in alloc; "{subject}: {name}: {sentence}")
        }
        None => format!(in alloc; "{name}: {sentence}"),
    }
}

//! A command in words for a log: its word, and what it is about.
use crate::members::Text;
use hall_events::{HallCommand, MachineCommand};
use std::alloc::Global;

// What a command on a machine is about, beside the machine.
fn machine_object(alloc: Global, command: &MachineCommand) -> Text {
    match command {
        MachineCommand::AddInterface { mac } | MachineCommand::RemoveInterface { mac } => {
            pxe_vendor::print_mac(alloc, &mac.octets())
        }
        MachineCommand::SetPool { pool } => String::from_str(alloc, pool.text()),
        MachineCommand::Deploy { image } => String::from_str(alloc, image.text()),
        MachineCommand::Release { erase: Some(erase) } => String::from_str(alloc, erase.text()),
        MachineCommand::Commission { tests: true } => String::from_str(alloc, "tests"),
        _ => Ok(String::new(alloc)),
    }
}

// What a command is about: names, an address or a machine.
fn object(alloc: Global, command: &HallCommand) -> Text {
    match command {
        HallCommand::AddOperator { operator, .. } | HallCommand::DisableOperator { operator } => {
            String::from_str(alloc, operator.text())
        }
        HallCommand::AddPool { pool } => String::from_str(alloc, pool.text()),
        HallCommand::Grant { pool, operator } => format!(in alloc; "{pool} {operator}"),
        HallCommand::AddImage { image } => String::from_str(alloc, image.name().text()),
        HallCommand::DeleteImage { image } | HallCommand::SetLive { image } => {
            String::from_str(alloc, image.text())
        }
        HallCommand::AddMachine { mac, .. } => pxe_vendor::print_mac(alloc, &mac.octets()),
        HallCommand::OnMachine {
            machine,
            command,
            ..
        } => {
            let object = machine_object(alloc, command)?;
            let id = machine.get();
            if object.is_empty() {
                format!(in alloc; "of machine {id}")
            } else {
                format!(in alloc; "{object} of machine {id}")
            }
        }
    }
}

/// A command by its word and the names or the address that it is about: `add_pool lab`, `grant lab olga`, `deploy jammy of machine 1`,
/// and `release full of machine 1` where all disks are to be erased in full.
pub(crate) fn command_text(alloc: Global, command: &HallCommand) -> Text {
    let word = command.kind().word();
    let object = object(alloc, command)?;
    format!(in alloc; "{word} {object}")
}

//! The commands of operators, their kinds, and the word of each kind.
ghost use Rattle.std.specs.Prelude.{◌≡◌, IfOk, OnOk, string_bytes};
ghost use Rattle.hall_types.specs.{Kinds.with_text, Octets.AreOctets};
ghost use Rattle.hall_events.specs.Command.{IsCommand, act_kind, command_kind, command_text, kind_with_word, kind_word, kinds, machine_kind, machine_word, request_text};

use crate::command_value::{command_value, request_value};
use hall_types::{
    Act, Digest, Erase, Image, MacAddress, MachineUuid, Name, Number, RequestKey, Role, Version,
};
use pxe_vendor::Arch;
use std::alloc::{AllocError, Global};

/// A command to the hall.
#[derive(Drop)]
pub enum HallCommand {
    AddOperator {
        operator: Name,
        role: Role,
        digest: Digest,
    },
    DisableOperator {
        operator: Name,
    },
    AddPool {
        pool: Name,
    },
    Grant {
        pool: Name,
        operator: Name,
    },
    AddImage {
        image: Image,
    },
    DeleteImage {
        image: Name,
    },
    SetLive {
        image: Name,
    },
    AddMachine {
        mac: MacAddress,
        arch: Arch,
        pool: Name,
        uuid: Option<MachineUuid>,
    },
    /// A command on a machine, and the version that the machine shall have.
    OnMachine {
        machine: Number,
        version: Option<Version>,
        command: MachineCommand,
    },
}

/// A command on a machine.
#[derive(Clone, Copy)]
pub enum MachineCommand {
    AddInterface { mac: MacAddress },
    RemoveInterface { mac: MacAddress },
    SetPool { pool: Name },
    Commission { tests: bool },
    Delete,
    Deploy { image: Name },
    /// With its disks erased in this way, or not.
    Release { erase: Option<Erase> },
    Act(Act),
}

/// The kind of a command on a machine.
#[derive(Clone, Copy)]
pub enum MachineKind {
    AddInterface,
    RemoveInterface,
    SetPool,
    Commission,
    Delete,
    Deploy,
    Release,
    Act(Act),
}

/// The kind of a command.
#[derive(Clone, Copy)]
pub enum CommandKind {
    AddOperator,
    DisableOperator,
    AddPool,
    Grant,
    AddImage,
    DeleteImage,
    SetLive,
    AddMachine,
    OnMachine(MachineKind),
}

impl MachineCommand {
    /// Its kind.
    pub fn kind(&self) -> MachineKind
        ensures { result ≡ machine_kind self.now }
    {
        match self {
            MachineCommand::AddInterface { .. } => MachineKind::AddInterface,
            MachineCommand::RemoveInterface { .. } => MachineKind::RemoveInterface,
            MachineCommand::SetPool { .. } => MachineKind::SetPool,
            MachineCommand::Commission { .. } => MachineKind::Commission,
            MachineCommand::Delete => MachineKind::Delete,
            MachineCommand::Deploy { .. } => MachineKind::Deploy,
            MachineCommand::Release { .. } => MachineKind::Release,
            MachineCommand::Act(act) => MachineKind::Act(*act),
        }
    }
}

impl HallCommand {
    /// Its kind.
    pub fn kind(&self) -> CommandKind
        ensures { result ≡ command_kind self.now }
    {
        match self {
            HallCommand::AddOperator { .. } => CommandKind::AddOperator,
            HallCommand::DisableOperator { .. } => CommandKind::DisableOperator,
            HallCommand::AddPool { .. } => CommandKind::AddPool,
            HallCommand::Grant { .. } => CommandKind::Grant,
            HallCommand::AddImage { .. } => CommandKind::AddImage,
            HallCommand::DeleteImage { .. } => CommandKind::DeleteImage,
            HallCommand::SetLive { .. } => CommandKind::SetLive,
            HallCommand::AddMachine { .. } => CommandKind::AddMachine,
            HallCommand::OnMachine { command, .. } => CommandKind::OnMachine(command.kind()),
        }
    }

    /// The text by which a receipt keeps the command: compact JSON of one object, its members in the order
    /// of their names' octets. The key of the request is no part of it.
    #[tactic(auto, using(crate::proofs::CommandLemmas::command_no_float), unfolding(crate::specs::Command::command_text))]
    pub fn text(&self, alloc: Global) -> Result<String, AllocError>
        ensures text { IfOk result (λ text. string_bytes text ≡ command_text self.now) }
        ensures whole { OnOk result (IsCommand self.now) }
    {
        command_value(alloc, self)?.to_string(alloc)
    }

    /// The body of a request with this command: its text, with the key of the request as one more member.
    #[tactic(auto, using(crate::proofs::CommandLemmas::request_no_float), unfolding(crate::specs::Command::request_text))]
    pub fn request_text(&self, alloc: Global, key: RequestKey) -> Result<String, AllocError>
        ensures text { IfOk result (λ text. string_bytes text ≡ request_text key self.now) }
        ensures whole { OnOk result (IsCommand self.now) }
        ensures key { OnOk result (AreOctets 16 key) }
    {
        request_value(alloc, key, self)?.to_string(alloc)
    }
}

// All kinds but acts.
const KINDS: [CommandKind; 15] = [
    CommandKind::AddOperator,
    CommandKind::DisableOperator,
    CommandKind::AddPool,
    CommandKind::Grant,
    CommandKind::AddImage,
    CommandKind::DeleteImage,
    CommandKind::SetLive,
    CommandKind::AddMachine,
    CommandKind::OnMachine(MachineKind::AddInterface),
    CommandKind::OnMachine(MachineKind::RemoveInterface),
    CommandKind::OnMachine(MachineKind::SetPool),
    CommandKind::OnMachine(MachineKind::Commission),
    CommandKind::OnMachine(MachineKind::Delete),
    CommandKind::OnMachine(MachineKind::Deploy),
    CommandKind::OnMachine(MachineKind::Release),
];

impl MachineKind {
    /// Its word in requests, in receipts and in a log.
    #[tactic(auto, unfolding(crate::specs::Command::machine_word))]
    pub fn word(self) -> &'static str
        ensures { result.now ≡ machine_word self }
    {
        match self {
            MachineKind::AddInterface => "add_interface",
            MachineKind::RemoveInterface => "remove_interface",
            MachineKind::SetPool => "set_pool",
            MachineKind::Commission => "commission",
            MachineKind::Delete => "delete",
            MachineKind::Deploy => "deploy",
            MachineKind::Release => "release",
            MachineKind::Act(act) => act.text(),
        }
    }
}

impl CommandKind {
    /// Its word in requests, in receipts and in a log.
    #[tactic(auto, unfolding(crate::specs::Command::kind_word))]
    pub fn word(self) -> &'static str
        ensures { result.now ≡ kind_word self }
    {
        match self {
            CommandKind::AddOperator => "add_operator",
            CommandKind::DisableOperator => "disable_operator",
            CommandKind::AddPool => "add_pool",
            CommandKind::Grant => "grant",
            CommandKind::AddImage => "add_image",
            CommandKind::DeleteImage => "delete_image",
            CommandKind::SetLive => "set_live",
            CommandKind::AddMachine => "add_machine",
            CommandKind::OnMachine(kind) => kind.word(),
        }
    }

    /// The kind that has this word.
    #[tactic(auto, unfolding(crate::specs::Command::kind_with_word))]
    pub fn with_word(word: &str) -> Option<CommandKind>
        ensures { result ≡ kind_with_word word.now }
    {
        match kind_among(&KINDS, word) {
            Some(kind) => Some(kind),
            None => act_kind(word),
        }
    }
}

// The one of these kinds that has this word.
fn kind_among(kinds: &[CommandKind], word: &str) -> Option<CommandKind>
    ensures { result ≡ with_text kind_word word.now kinds.now }
{
    kinds.iter().copied().find(|kind| kind.word() == word)
}

// The act that has this word.
fn act_kind(word: &str) -> Option<CommandKind>
    ensures { result ≡ act_kind word.now }
{
    match word.parse::<Act>() {
        Ok(act) => Some(CommandKind::OnMachine(MachineKind::Act(act))),
        Err(_) => None,
    }
}

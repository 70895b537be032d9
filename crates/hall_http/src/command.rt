//! Commands with their keys, the members of each kind, and which commands the text of a request can bring.
ghost use Rattle.std.specs.Prelude.{◌≡◌, codes, IfOk};
ghost use Rattle.hall_http.specs.{Prelude.{view, IsImage, IsName}, Body.texts};
ghost use Rattle.hall_http.specs.Command as from_json;
ghost use Rattle.hall_events.specs.declared.command.HallCommand.TheVariants as made;

use crate::body::value_of;
use crate::image::image_at;
use crate::member::{
    arch_at, digest_at, erase_at, key_at, mac_at, name_at, number_at, role_at, tests_at, text_at,
    uuid_at, version_at,
};
use crate::shape::fits;
use hall_events::{CommandKind, HallCommand, MachineCommand, MachineKind};
use hall_types::{Image, MachineUuid, Name, RequestKey};
use pxe_vendor::is_blank;
use serde_json::Value;
use std::alloc::{AllocError, Global};

/// A command, with the key of its request.
#[derive(Drop)]
pub struct KeyedCommand {
    pub key: RequestKey,
    pub command: HallCommand,
}

/// What each command must have.
pub(crate) fn common_members(kind: CommandKind) -> &'static [&'static str]
    ensures { texts result.now ≡ from_json.common_members kind }
{
    match kind {
        CommandKind::OnMachine(_) => &["key", "command", "machine"],
        _ => &["key", "command"],
    }
}

// What a command of this kind must have beside what each command on a machine has.
fn machine_members(kind: MachineKind) -> &'static [&'static str]
    ensures { texts result.now ≡ from_json.machine_members kind }
{
    match kind {
        MachineKind::AddInterface | MachineKind::RemoveInterface => &["mac"],
        MachineKind::SetPool => &["pool"],
        MachineKind::Commission => &["tests"],
        MachineKind::Deploy => &["image"],
        MachineKind::Release => &["erase"],
        _ => &[],
    }
}

/// What a command of this kind must have besides.
pub(crate) fn own_members(kind: CommandKind) -> &'static [&'static str]
    ensures { texts result.now ≡ from_json.own_members kind }
{
    match kind {
        CommandKind::AddOperator => &["operator", "role", "digest"],
        CommandKind::DisableOperator => &["operator"],
        CommandKind::AddPool => &["pool"],
        CommandKind::Grant => &["pool", "operator"],
        CommandKind::AddImage => &["image", "arch", "kernel", "initrd", "args"],
        CommandKind::DeleteImage | CommandKind::SetLive => &["image"],
        CommandKind::AddMachine => &["mac", "arch", "pool"],
        CommandKind::OnMachine(kind) => machine_members(kind),
    }
}

/// What a command of this kind may have.
pub(crate) fn optional_members(kind: CommandKind) -> &'static [&'static str]
    ensures { texts result.now ≡ from_json.optional_members kind }
{
    match kind {
        CommandKind::AddMachine => &["uuid"],
        CommandKind::OnMachine(_) => &["version"],
        _ => &[],
    }
}

fn add_operator(json: &Value) -> Option<HallCommand>
    ensures { result ≡ from_json.operator_command (view json.now) }
{
    Some(HallCommand::AddOperator {
        operator: name_at(json, "operator")?,
        role: role_at(json)?,
        digest: digest_at(json)?,
    })
}

fn disable_operator(json: &Value) -> Option<HallCommand>
    ensures { result ≡ from_json.named_command made.DisableOperator (codes "operator") (view json.now) }
{
    let operator = name_at(json, "operator")?;
    Some(HallCommand::DisableOperator { operator })
}

fn add_pool(json: &Value) -> Option<HallCommand>
    ensures { result ≡ from_json.named_command made.AddPool (codes "pool") (view json.now) }
{
    let pool = name_at(json, "pool")?;
    Some(HallCommand::AddPool { pool })
}

fn grant(json: &Value) -> Option<HallCommand>
    ensures { result ≡ from_json.grant_command (view json.now) }
{
    let pool = name_at(json, "pool")?;
    let operator = name_at(json, "operator")?;
    Some(HallCommand::Grant { pool, operator })
}

fn add_image(alloc: Global, json: &Value) -> Result<Option<HallCommand>, AllocError>
    ensures { IfOk result (λ command. command ≡ from_json.image_command (view json.now)) }
{
    Ok(image_at(alloc, json)?.map(|image| HallCommand::AddImage { image }))
}

fn delete_image(json: &Value) -> Option<HallCommand>
    ensures { result ≡ from_json.named_command made.DeleteImage (codes "image") (view json.now) }
{
    let image = name_at(json, "image")?;
    Some(HallCommand::DeleteImage { image })
}

fn set_live(json: &Value) -> Option<HallCommand>
    ensures { result ≡ from_json.named_command made.SetLive (codes "image") (view json.now) }
{
    let image = name_at(json, "image")?;
    Some(HallCommand::SetLive { image })
}

fn add_machine(json: &Value) -> Option<HallCommand>
    ensures { result ≡ from_json.new_machine_command (view json.now) }
{
    Some(HallCommand::AddMachine {
        mac: mac_at(json)?,
        arch: arch_at(json)?,
        pool: name_at(json, "pool")?,
        uuid: uuid_at(json)?,
    })
}

// What is done to the machine.
#[tactic(auto, unfolding(crate::specs::Command::machine_command))]
fn machine_command(kind: MachineKind, json: &Value) -> Option<MachineCommand>
    ensures { result ≡ from_json.machine_command kind (view json.now) }
{
    match kind {
        MachineKind::AddInterface => Some(MachineCommand::AddInterface { mac: mac_at(json)? }),
        MachineKind::RemoveInterface => {
            Some(MachineCommand::RemoveInterface { mac: mac_at(json)? })
        }
        MachineKind::SetPool => Some(MachineCommand::SetPool {
            pool: name_at(json, "pool")?,
        }),
        MachineKind::Commission => Some(MachineCommand::Commission {
            tests: tests_at(json)?,
        }),
        MachineKind::Delete => Some(MachineCommand::Delete),
        MachineKind::Deploy => Some(MachineCommand::Deploy {
            image: name_at(json, "image")?,
        }),
        MachineKind::Release => Some(MachineCommand::Release {
            erase: erase_at(json)?,
        }),
        MachineKind::Act(act) => Some(MachineCommand::Act(act)),
    }
}

// The command of this kind on a machine.
fn on_machine(kind: MachineKind, json: &Value) -> Option<HallCommand>
    ensures { result ≡ from_json.on_machine kind (view json.now) }
{
    Some(HallCommand::OnMachine {
        machine: number_at(json, "machine")?,
        version: version_at(json)?,
        command: machine_command(kind, json)?,
    })
}

// The command of this kind.
#[tactic(auto, unfolding(crate::specs::Command::command_of))]
fn command_of(
    alloc: Global,
    kind: CommandKind,
    json: &Value,
) -> Result<Option<HallCommand>, AllocError>
    ensures { IfOk result (λ command. command ≡ from_json.command_of kind (view json.now)) }
{
    match kind {
        CommandKind::AddOperator => Ok(add_operator(json)),
        CommandKind::DisableOperator => Ok(disable_operator(json)),
        CommandKind::AddPool => Ok(add_pool(json)),
        CommandKind::Grant => Ok(grant(json)),
        CommandKind::AddImage => add_image(alloc, json),
        CommandKind::DeleteImage => Ok(delete_image(json)),
        CommandKind::SetLive => Ok(set_live(json)),
        CommandKind::AddMachine => Ok(add_machine(json)),
        CommandKind::OnMachine(kind) => Ok(on_machine(kind, json)),
    }
}

fn fits_kind(kind: CommandKind, json: &Value) -> bool
    ensures { result ≡ from_json.fits_kind kind (view json.now) }
{
    fits(
        json,
        common_members(kind),
        own_members(kind),
        optional_members(kind),
    )
}

pub(crate) fn kind_at(json: &Value) -> Option<CommandKind>
    ensures { result ≡ from_json.kind_at (view json.now) }
{
    CommandKind::with_word(text_at(json, "command")?)
}

fn with_key(
    alloc: Global,
    kind: CommandKind,
    json: &Value,
) -> Result<Option<KeyedCommand>, AllocError>
    ensures { IfOk result (λ command. command ≡ from_json.with_key kind (view json.now)) }
{
    let Some(key) = key_at(json) else {
        return Ok(None);
    };
    Ok(command_of(alloc, kind, json)?.map(|command| KeyedCommand { key, command }))
}

#[tactic(auto, unfolding(crate::specs::Command::keyed_command))]
fn keyed_command(alloc: Global, json: &Value) -> Result<Option<KeyedCommand>, AllocError>
    ensures { IfOk result (λ command. command ≡ from_json.keyed_command (view json.now)) }
{
    let Some(kind) = kind_at(json) else {
        return Ok(None);
    };
    if fits_kind(kind, json) {
        with_key(alloc, kind, json)
    } else {
        Ok(None)
    }
}

/// The command that a body says, with the key of its request; nothing where the body is no JSON object with
/// exactly the members of a command, each of its kind and in its range. The error is want of memory.
#[tactic(auto, unfolding(crate::specs::Command::command_in))]
pub fn command_in(alloc: Global, body: &[u8]) -> Result<Option<KeyedCommand>, AllocError>
    ensures { IfOk result (λ command. command ≡ from_json.command_in body.now) }
{
    match value_of(alloc, body)? {
        Some(json) => keyed_command(alloc, &json),
        None => Ok(None),
    }
}

fn identifies(uuid: Option<MachineUuid>) -> bool
    ensures { result ≡ from_json.identifies uuid }
{
    match uuid {
        None => true,
        Some(uuid) => !is_blank(&uuid.octets()),
    }
}

/// Whether a UUID that a command brings identifies a machine: it has neither zeros alone nor ones alone.
pub fn is_identified(command: &HallCommand) -> bool
    ensures { result ≡ from_json.is_identified command.now }
{
    match command {
        HallCommand::AddMachine { uuid, .. } => identifies(*uuid),
        _ => true,
    }
}

// What every name is.
fn is_name(name: Name)
    ensures { IsName name }
{
    let _ = name.text();
}

fn is_image(image: &Image)
    ensures { IsName image.now.name × IsImage image.now }
{
    is_name(image.name());
    image.is_image();
}

fn has_names(command: &MachineCommand)
    ensures { from_json.HasNames command.now }
{
    match command {
        MachineCommand::SetPool { pool } => is_name(*pool),
        MachineCommand::Deploy { image } => is_name(*image),
        _ => {}
    }
}

/// What the texts of every command are.
pub fn has_parts(command: &HallCommand)
    ensures { from_json.HasParts command.now }
{
    match command {
        HallCommand::AddOperator { operator, .. } => is_name(*operator),
        HallCommand::DisableOperator { operator } => is_name(*operator),
        HallCommand::AddPool { pool } => is_name(*pool),
        HallCommand::Grant { pool, operator } => {
            is_name(*pool);
            is_name(*operator);
        }
        HallCommand::AddImage { image } => is_image(image),
        HallCommand::DeleteImage { image } => is_name(*image),
        HallCommand::SetLive { image } => is_name(*image),
        HallCommand::AddMachine { pool, .. } => is_name(*pool),
        HallCommand::OnMachine { command, .. } => has_names(command),
    }
}

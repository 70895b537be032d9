//! Commands as JSON values.
ghost use Rattle.std.specs.Prelude.{◌≡◌, ◌∷◌, [], map, option_map, IfOk, IfSome, OnOk};
ghost use Rattle.serde_json.specs.{Data.{array, string}, View.{view, items_of, members_view}};
ghost use Rattle.hall_types.specs.{Number.IsNumber, Octets.AreOctets};
ghost use Rattle.hall_events.specs.{Object.{count, put_all}, Command.{IsCommand, IsMachineCommand, command_data, command_member, erase_data, members_of, own_members, request_data}, declared.command.HallCommand.HallCommand};

use crate::command::{CommandKind, HallCommand, MachineCommand};
use crate::member::{mac_value, put_count, put_if, put_text, uuid_text, uuid_value};
use hall_types::{
    Digest, Erase, Image, MacAddress, MachineUuid, Name, Number, RequestKey, Role, Version,
};
use ipxe_script::Word;
use pxe_vendor::Arch;
use serde_json::{Map, Value, put};
use std::alloc::{AllocError, Global};

// The members of a command with one name.
fn put_named(
    alloc: Global,
    members: &mut Map<String, Value>,
    kind: CommandKind,
    member: &str,
    name: Name,
) -> Result<(), AllocError>
    ensures { OnOk result (members_view members.new.entries ≡ put_all (command_member kind ∷ (member.now, string name) ∷ []) (members_view members.old.entries)) }
{
    put_text(alloc, members, "command", kind.word())?;
    put_text(alloc, members, member, name.text())
}

#[tactic(auto, unfolding(crate::specs::Command::members_of))]
fn put_grant(
    alloc: Global,
    members: &mut Map<String, Value>,
    pool: Name,
    operator: Name,
) -> Result<(), AllocError>
    ensures { OnOk result (members_view members.new.entries ≡ put_all (members_of (HallCommand.Grant pool operator)) (members_view members.old.entries)) }
{
    put_text(alloc, members, "command", CommandKind::Grant.word())?;
    put_text(alloc, members, "operator", operator.text())?;
    put_text(alloc, members, "pool", pool.text())
}

#[tactic(auto, unfolding(crate::specs::Command::members_of))]
fn put_operator(
    alloc: Global,
    members: &mut Map<String, Value>,
    operator: Name,
    role: Role,
    digest: Digest,
) -> Result<(), AllocError>
    ensures members { OnOk result (members_view members.new.entries ≡ put_all (members_of (HallCommand.AddOperator operator role digest)) (members_view members.old.entries)) }
    ensures whole { OnOk result (AreOctets 32 digest) }
{
    put_text(alloc, members, "command", CommandKind::AddOperator.word())?;
    let digest = hex::encode(alloc, digest.octets())?;
    put(members, alloc, "digest", Value::String(digest))?;
    put_text(alloc, members, "operator", operator.text())?;
    put_text(alloc, members, "role", role.text())
}

fn words_value(alloc: Global, words: &[Word]) -> Result<Value, AllocError>
    ensures { IfOk result (λ value. view value ≡ array (items_of (map string words.now))) }
{
    let mut items = Vec::with_capacity(alloc, words.len())?;
    for word in words {
        items.push(Value::try_from_str(alloc, word.text())?)?;
    }
    Ok(Value::Array(items))
}

#[tactic(auto, unfolding(crate::specs::Command::members_of))]
fn put_image(
    alloc: Global,
    members: &mut Map<String, Value>,
    image: &Image,
) -> Result<(), AllocError>
    ensures { OnOk result (members_view members.new.entries ≡ put_all (members_of (HallCommand.AddImage image.now)) (members_view members.old.entries)) }
{
    put_text(alloc, members, "command", CommandKind::AddImage.word())?;
    put_text(alloc, members, "arch", image.arch().text())?;
    put(members, alloc, "args", words_value(alloc, image.args())?)?;
    put_text(alloc, members, "image", image.name().text())?;
    put_text(alloc, members, "initrd", image.initrd().text())?;
    put_text(alloc, members, "kernel", image.kernel().text())
}

#[tactic(auto, unfolding(crate::specs::Command::members_of))]
fn put_machine(
    alloc: Global,
    members: &mut Map<String, Value>,
    mac: MacAddress,
    arch: Arch,
    pool: Name,
    uuid: Option<MachineUuid>,
) -> Result<(), AllocError>
    ensures members { OnOk result (members_view members.new.entries ≡ put_all (members_of (HallCommand.AddMachine mac arch pool uuid)) (members_view members.old.entries)) }
    ensures whole { OnOk result (AreOctets 6 mac × IfSome uuid (AreOctets 16)) }
{
    put_text(alloc, members, "command", CommandKind::AddMachine.word())?;
    put_text(alloc, members, "arch", arch.text())?;
    put(members, alloc, "mac", mac_value(alloc, mac)?)?;
    put_text(alloc, members, "pool", pool.text())?;
    put_if(alloc, members, "uuid", uuid_value(alloc, uuid)?)
}

fn erase_value(alloc: Global, erase: Option<Erase>) -> Result<Value, AllocError>
    ensures { IfOk result (λ value. view value ≡ erase_data erase) }
{
    match erase {
        None => Ok(Value::from(false)),
        Some(Erase::Full) => Ok(Value::from(true)),
        Some(Erase::Quick) => Value::try_from_str(alloc, Erase::Quick.text()),
    }
}

// The member that only this command on a machine has, if there is one.
fn put_own(
    alloc: Global,
    members: &mut Map<String, Value>,
    command: &MachineCommand,
) -> Result<(), AllocError>
    ensures members { OnOk result (members_view members.new.entries ≡ put_all (own_members command.now) (members_view members.old.entries)) }
    ensures whole { OnOk result (IsMachineCommand command.now) }
{
    match command {
        MachineCommand::AddInterface { mac } | MachineCommand::RemoveInterface { mac } => {
            put(members, alloc, "mac", mac_value(alloc, *mac)?)
        }
        MachineCommand::SetPool { pool } => put_text(alloc, members, "pool", pool.text()),
        MachineCommand::Commission { tests } => put(members, alloc, "tests", Value::from(*tests)),
        MachineCommand::Deploy { image } => put_text(alloc, members, "image", image.text()),
        MachineCommand::Release { erase } => {
            put(members, alloc, "erase", erase_value(alloc, *erase)?)
        }
        _ => Ok(()),
    }
}

// A version's number.
fn version_value(version: Option<Version>) -> Option<Value>
    ensures value { option_map view result ≡ option_map count version }
    ensures whole { IfSome version IsNumber }
{
    let version = version?;
    Some(Value::from(version.get()))
}

#[tactic(auto, using(crate::proofs::CommandLemmas::put_all_append), unfolding(crate::specs::Command::members_of))]
fn put_on_machine(
    alloc: Global,
    members: &mut Map<String, Value>,
    machine: Number,
    version: Option<Version>,
    command: &MachineCommand,
) -> Result<(), AllocError>
    ensures members { OnOk result (members_view members.new.entries ≡ put_all (members_of (HallCommand.OnMachine machine version command.now)) (members_view members.old.entries)) }
    ensures whole { OnOk result (IsNumber machine × IfSome version IsNumber × IsMachineCommand command.now) }
{
    let kind = CommandKind::OnMachine(command.kind());
    put_text(alloc, members, "command", kind.word())?;
    put_count(alloc, members, "machine", machine.get())?;
    put_own(alloc, members, command)?;
    put_if(alloc, members, "version", version_value(version))
}

#[tactic(auto, unfolding(crate::specs::Command::members_of))]
fn put_command(
    alloc: Global,
    members: &mut Map<String, Value>,
    command: &HallCommand,
) -> Result<(), AllocError>
    ensures members { OnOk result (members_view members.new.entries ≡ put_all (members_of command.now) (members_view members.old.entries)) }
    ensures whole { OnOk result (IsCommand command.now) }
{
    match command {
        HallCommand::AddOperator {
            operator,
            role,
            digest,
        } => put_operator(alloc, members, *operator, *role, *digest),
        HallCommand::DisableOperator { operator } => {
            put_named(
                alloc,
                members,
                CommandKind::DisableOperator,
                "operator",
                *operator,
            )
        }
        HallCommand::AddPool { pool } => put_named(
            alloc,
            members,
            CommandKind::AddPool,
            "pool",
            *pool,
        ),
        HallCommand::Grant { pool, operator } => put_grant(alloc, members, *pool, *operator),
        HallCommand::AddImage { image } => put_image(alloc, members, image),
        HallCommand::DeleteImage { image } => {
            put_named(alloc, members, CommandKind::DeleteImage, "image", *image)
        }
        HallCommand::SetLive { image } => {
            put_named(alloc, members, CommandKind::SetLive, "image", *image)
        }
        HallCommand::AddMachine {
            mac,
            arch,
            pool,
            uuid,
        } => put_machine(alloc, members, *mac, *arch, *pool, *uuid),
        HallCommand::OnMachine {
            machine,
            version,
            command,
        } => put_on_machine(alloc, members, *machine, *version, command),
    }
}

pub(crate) fn command_value(alloc: Global, command: &HallCommand) -> Result<Value, AllocError>
    ensures value { IfOk result (λ value. view value ≡ command_data command.now) }
    ensures whole { OnOk result (IsCommand command.now) }
{
    let mut members = Map::new(alloc);
    put_command(alloc, &mut members, command)?;
    Ok(Value::Object(members))
}

pub(crate) fn request_value(
    alloc: Global,
    key: RequestKey,
    command: &HallCommand,
) -> Result<Value, AllocError>
    ensures value { IfOk result (λ value. view value ≡ request_data key command.now) }
    ensures whole { OnOk result (IsCommand command.now) }
    ensures key { OnOk result (AreOctets 16 key) }
{
    let mut members = Map::new(alloc);
    put(&mut members, alloc, "key", uuid_text(alloc, key.octets())?)?;
    put_command(alloc, &mut members, command)?;
    Ok(Value::Object(members))
}

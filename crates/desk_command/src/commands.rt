//! The rows that a command names, read from a store.
ghost use Rattle.std.specs.Prelude.{◌≡◌, is_some};
ghost use Rattle.desk_command.specs.Command as made;
ghost use Rattle.desk_command.specs.Causes as view;
ghost use Rattle.desk_command.specs.{Prelude.{is_image_used, operator_with_digest, at, size}, Look.Looks};

use crate::clients::by_uuid;
use crate::machine_commands::machine_view;
use crate::named::{has_digest, has_member, has_pool, image_arch, nothing};
use crate::view::{CommandView, Read};
use hall_events::{HallCommand, MachineCommand};
use hall_store::HallStore;
use hall_types::{Digest, MacAddress, MachineUuid, Name, Number, Operator};
use std::alloc::Global;

/// The operator of a bearer token's digest.
pub fn sender<S: HallStore>(store: &mut S, bearer: Option<Digest>) -> Read<Option<Operator>>
    ensures { Looks S.HallStore store.old store.new result (λ h answer. answer ≡ made.sender h bearer) }
{
    match bearer {
        Some(digest) => store.operator_by_digest(&digest),
        None => Ok(None),
    }
}

// What a hall has of a new operator.
fn operator_view<S: HallStore>(store: &mut S, name: &Name, digest: &Digest) -> Read<CommandView>
    ensures { Looks S.HallStore store.old store.new result (λ h answer. answer ≡ record (view.nothing_of h) { operator = at h.operators name.now; has_digest = is_some (operator_with_digest h digest.now) }) }
{
    let operator = store.operator(name)?;
    let has_digest = has_digest(store, digest)?;
    let nothing = nothing(store)?;
    Ok(CommandView {
        operator,
        has_digest,
        ..nothing
    })
}

// What a hall has of an operator that is disabled.
fn disabled_view<S: HallStore>(store: &mut S, name: &Name) -> Read<CommandView>
    ensures { Looks S.HallStore store.old store.new result (λ h answer. answer ≡ record (view.nothing_of h) { operator = at h.operators name.now }) }
{
    let operator = store.operator(name)?;
    let nothing = nothing(store)?;
    Ok(CommandView {
        operator,
        ..nothing
    })
}

// What a hall has of a new pool.
fn pool_view<S: HallStore>(store: &mut S, pool: &Name) -> Read<CommandView>
    ensures { Looks S.HallStore store.old store.new result (λ h answer. answer ≡ record (view.nothing_of h) { has_pool = view.has_pool h pool.now }) }
{
    let has_pool = has_pool(store, pool)?;
    let nothing = nothing(store)?;
    Ok(CommandView {
        has_pool,
        ..nothing
    })
}

// What a hall has of a new member.
fn member_view<S: HallStore>(store: &mut S, pool: &Name, name: &Name) -> Read<CommandView>
    ensures { Looks S.HallStore store.old store.new result (λ h answer. answer ≡ record (view.nothing_of h) { has_pool = view.has_pool h pool.now; operator = at h.operators name.now; is_member = view.has_member h pool.now name.now }) }
{
    let has_pool = has_pool(store, pool)?;
    let operator = store.operator(name)?;
    let is_member = has_member(store, pool, name)?;
    let nothing = nothing(store)?;
    Ok(CommandView {
        has_pool,
        operator,
        is_member,
        ..nothing
    })
}

// What a hall has of an image that is added, or becomes a live image.
fn image_view<S: HallStore>(alloc: Global, store: &mut S, image: &Name) -> Read<CommandView>
    ensures { Looks S.HallStore store.old store.new result (λ h answer. answer ≡ record (view.nothing_of h) { image = view.image_arch h image.now }) }
{
    let image = image_arch(alloc, store, image)?;
    let nothing = nothing(store)?;
    Ok(CommandView { image, ..nothing })
}

// What a hall has of an image that is deleted.
fn deleted_view<S: HallStore>(alloc: Global, store: &mut S, image: &Name) -> Read<CommandView>
    ensures { Looks S.HallStore store.old store.new result (λ h answer. answer ≡ record (view.nothing_of h) { image = view.image_arch h image.now; image_used = is_image_used h image.now }) }
{
    let image_used = store.image_used(image)?;
    let image = image_arch(alloc, store, image)?;
    let nothing = nothing(store)?;
    Ok(CommandView {
        image,
        image_used,
        ..nothing
    })
}

// What a hall has of a new machine.
fn added_view<S: HallStore>(
    store: &mut S,
    mac: MacAddress,
    pool: &Name,
    uuid: Option<MachineUuid>,
) -> Read<CommandView>
    ensures { Looks S.HallStore store.old store.new result (λ h answer. answer ≡ record (view.nothing_of h) { has_pool = view.has_pool h pool.now; by_mac = view.by_mac h mac; by_uuid = view.by_uuid h uuid; machines = size h.machines }) }
{
    let has_pool = has_pool(store, pool)?;
    let by_mac = store.by_mac(mac)?;
    let by_uuid = by_uuid(store, uuid)?;
    let machines = store.machine_count()?;
    let nothing = nothing(store)?;
    Ok(CommandView {
        has_pool,
        by_mac,
        by_uuid,
        machines,
        ..nothing
    })
}

// What a hall has of a command on the machine with a number.
fn numbered_view<S: HallStore>(
    alloc: Global,
    store: &mut S,
    by: &Operator,
    id: Number,
    command: &MachineCommand,
) -> Read<CommandView>
    ensures { Looks S.HallStore store.old store.new result (λ h answer. answer ≡ view.machine_view_if h by.now (at h.machines id) command.now) }
{
    match store.machine(id)? {
        Some(machine) => machine_view(alloc, store, by, &machine, command),
        None => nothing(store),
    }
}

/// What a hall has of an operator's command: the rows that the command names.
#[tactic(auto, unfolding(crate::specs::Causes::command_view))]
pub fn command_view<S: HallStore>(
    alloc: Global,
    store: &mut S,
    by: &Operator,
    command: &HallCommand,
) -> Read<CommandView>
    ensures { Looks S.HallStore store.old store.new result (λ h answer. answer ≡ view.command_view h by.now command.now) }
{
    match command {
        HallCommand::AddOperator {
            operator,
            digest,
            ..
        } => operator_view(store, operator, digest),
        HallCommand::DisableOperator { operator } => disabled_view(store, operator),
        HallCommand::AddPool { pool } => pool_view(store, pool),
        HallCommand::Grant { pool, operator } => member_view(store, pool, operator),
        HallCommand::AddImage { image } => image_view(alloc, store, &image.name()),
        HallCommand::DeleteImage { image } => deleted_view(alloc, store, image),
        HallCommand::SetLive { image } => image_view(alloc, store, image),
        HallCommand::AddMachine {
            mac,
            pool,
            uuid,
            ..
        } => added_view(store, *mac, pool, *uuid),
        HallCommand::OnMachine {
            machine,
            command,
            ..
        } => numbered_view(alloc, store, by, *machine, command),
    }
}

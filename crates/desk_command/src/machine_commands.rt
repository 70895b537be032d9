//! The rows that a command on a machine names, read from a store.
ghost use Rattle.std.specs.Prelude.{◌≡◌, length};
ghost use Rattle.desk_command.specs.Causes as view;
ghost use Rattle.desk_command.specs.{Prelude.interfaces_of, Look.Looks};

use crate::boots::order_at;
use crate::named::{has_live, has_member, has_pool, image_arch, nothing};
use crate::view::{CommandView, Read};
use hall_events::MachineCommand;
use hall_store::HallStore;
use hall_types::{Act, MacAddress, Machine, Name, Operator};
use std::alloc::Global;

// How many interfaces a machine has.
fn interface_count<S: HallStore>(alloc: Global, store: &mut S, machine: &Machine) -> Read<u64>
    ensures { Looks S.HallStore store.old store.new result (λ h answer. answer ≡ length (interfaces_of h machine.now.id)) }
{
    let interfaces = store.interfaces_of(alloc, machine.id)?;
    Ok(interfaces.len() as u64)
}

// A machine, and the order that it waits for.
fn of_machine<S: HallStore>(store: &mut S, machine: &Machine) -> Read<CommandView>
    ensures { Looks S.HallStore store.old store.new result (λ h answer. answer ≡ view.of_machine h machine.now) }
{
    let order = order_at(store, machine.waiting)?;
    let nothing = nothing(store)?;
    Ok(CommandView {
        machine: Some(*machine),
        order,
        ..nothing
    })
}

// With the interfaces of the machine, and the machine that an address is recorded with.
fn with_interfaces<S: HallStore>(
    alloc: Global,
    store: &mut S,
    machine: &Machine,
    mac: MacAddress,
) -> Read<CommandView>
    ensures { Looks S.HallStore store.old store.new result (λ h answer. answer ≡ view.with_interfaces h machine.now mac) }
{
    let interfaces = interface_count(alloc, store, machine)?;
    let by_mac = store.by_mac(mac)?;
    let view = of_machine(store, machine)?;
    Ok(CommandView {
        interfaces,
        by_mac,
        ..view
    })
}

// With whether the machine's architecture has a live image.
fn with_live<S: HallStore>(store: &mut S, machine: &Machine) -> Read<CommandView>
    ensures { Looks S.HallStore store.old store.new result (λ h answer. answer ≡ view.with_live h machine.now) }
{
    let has_live = has_live(store, machine.arch)?;
    let view = of_machine(store, machine)?;
    Ok(CommandView { has_live, ..view })
}

// With whether there is a pool.
fn with_pool<S: HallStore>(store: &mut S, machine: &Machine, pool: &Name) -> Read<CommandView>
    ensures { Looks S.HallStore store.old store.new result (λ h answer. answer ≡ record (view.of_machine h machine.now) { has_pool = view.has_pool h pool.now }) }
{
    let has_pool = has_pool(store, pool)?;
    let view = of_machine(store, machine)?;
    Ok(CommandView { has_pool, ..view })
}

// With whether an operator is a member of the machine's pool.
fn with_member<S: HallStore>(store: &mut S, machine: &Machine, by: &Operator) -> Read<CommandView>
    ensures { Looks S.HallStore store.old store.new result (λ h answer. answer ≡ record (view.of_machine h machine.now) { is_member = view.has_member h machine.now.pool by.now.name }) }
{
    let is_member = has_member(store, &machine.pool, &by.name)?;
    let view = of_machine(store, machine)?;
    Ok(CommandView { is_member, ..view })
}

// With the architecture of an image.
fn with_image<S: HallStore>(
    alloc: Global,
    store: &mut S,
    machine: &Machine,
    image: &Name,
) -> Read<CommandView>
    ensures { Looks S.HallStore store.old store.new result (λ h answer. answer ≡ record (view.of_machine h machine.now) { image = view.image_arch h image.now }) }
{
    let image = image_arch(alloc, store, image)?;
    let view = of_machine(store, machine)?;
    Ok(CommandView { image, ..view })
}

pub(crate) fn machine_view<S: HallStore>(
    alloc: Global,
    store: &mut S,
    by: &Operator,
    machine: &Machine,
    command: &MachineCommand,
) -> Read<CommandView>
    ensures { Looks S.HallStore store.old store.new result (λ h answer. answer ≡ view.machine_view h by.now machine.now command.now) }
{
    match command {
        MachineCommand::AddInterface { mac } | MachineCommand::RemoveInterface { mac } => {
            with_interfaces(alloc, store, machine, *mac)
        }
        MachineCommand::SetPool { pool } => with_pool(store, machine, pool),
        MachineCommand::Deploy { image } => with_image(alloc, store, machine, image),
        MachineCommand::Commission { .. }
        | MachineCommand::Release { erase: Some(_) }
        | MachineCommand::Act(Act::Test | Act::Rescue) => with_live(store, machine),
        MachineCommand::Act(Act::Allocate) => with_member(store, machine, by),
        MachineCommand::Release { erase: None } | MachineCommand::Delete | MachineCommand::Act(_) =>
            { of_machine(store, machine) }
    }
}

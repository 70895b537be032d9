//! What a client's frame is answered.
ghost use Rattle.std.specs.Prelude.{◌≡◌, ◌<◌, IfOk, option_map};
ghost use Rattle.hall_types.specs.Hall.{default_pool as pool_of_new};
ghost use Rattle.boot_desk.specs.FrameEvent.{enlisted, for_unknown, frame_decision, is_echo_long, is_port_of, is_uuid_of_other, new_machine};

use hall_types::{
    BootCount, Change, Interface, LastIssued, MAX_MACHINES, MacAddress, Machine, MachineUuid, Name,
    Number, Numbers, Port, RowWrite, Status, Version,
};
use pxe_vendor::{Client, Kind, Octets};
use std::alloc::{AllocError, Global};

/// What a hall has of a client: the number of the machine that its address is recorded with, that of the
/// machine that its UUID is recorded with, how many machines there are, and the last numbers.
#[derive(Clone, Copy)]
pub struct FrameView {
    pub by_mac: Option<Number>,
    pub by_uuid: Option<Number>,
    pub machines: u64,
    pub numbers: Numbers,
}

/// Why a frame is not answered, in the order in which the causes are looked for.
#[derive(Clone, Copy, Debug)]
pub enum Silence {
    /// A DISCOVER came to the boot server's port, or a REQUEST to the DHCP server's.
    WrongPort = 1,
    /// The client's identifier has more than 255 octets, which no option of the answer can hold.
    EchoTooLong = 2,
    /// The client's UUID is recorded with a machine that doesn't have its address.
    KnownUuid = 3,
    /// The client is unknown and the hall has its maximum of machines.
    Full = 4,
    /// The client is unknown and all numbers of machines were issued.
    Exhausted = 5,
}

/// How a frame is answered.
#[derive(Clone, Copy)]
pub enum Decision {
    /// With the loader for the client's architecture.
    Loader,
    /// With the URL of the machine's script, since the client is iPXE.
    ScriptUrl,
    /// Like that of a known machine, once the client is enlisted.
    Enlist,
    Silent(Silence),
}

fn is_port_of(kind: Kind, port: Port) -> bool
    ensures { result ≡ is_port_of kind port }
{
    matches!(
        (kind, port),
        (Kind::Discover, Port::Discover) | (Kind::Request, Port::Boot)
    )
}

fn is_echo_long(echo: &Option<Octets>) -> bool
    ensures { result ≡ is_echo_long echo.now }
{
    match echo {
        Some(identifier) => identifier.as_slice().len() > 255,
        None => false,
    }
}

fn is_uuid_of_other(by_uuid: Option<Number>, by_mac: Option<Number>) -> bool
    ensures { result ≡ is_uuid_of_other by_uuid by_mac }
{
    match (by_uuid, by_mac) {
        (Some(id), Some(own)) => id.get() != own.get(),
        (Some(_), None) => true,
        (None, _) => false,
    }
}

fn for_unknown(view: &FrameView) -> Decision
    ensures { result ≡ for_unknown view.now }
{
    if view.machines >= MAX_MACHINES {
        return Decision::Silent(Silence::Full);
    }
    match view.numbers.machine.next() {
        Some(_) => Decision::Enlist,
        None => Decision::Silent(Silence::Exhausted),
    }
}

/// How a client's frame at a port is answered. It takes no memory.
#[tactic(auto, unfolding(crate::specs::FrameEvent::frame_decision))]
pub fn frame(view: &FrameView, port: Port, client: &Client) -> Decision
    ensures { result ≡ frame_decision view.now port client.now }
{
    if !is_port_of(client.kind, port) {
        return Decision::Silent(Silence::WrongPort);
    }
    if is_echo_long(&client.echo97) {
        return Decision::Silent(Silence::EchoTooLong);
    }
    if is_uuid_of_other(view.by_uuid, view.by_mac) {
        return Decision::Silent(Silence::KnownUuid);
    }
    if view.by_mac.is_none() {
        return for_unknown(view);
    }
    if client.ipxe {
        Decision::ScriptUrl
    } else {
        Decision::Loader
    }
}

// The name `default`.
fn default_pool() -> Name
    ensures { result ≡ pool_of_new }
{
    match Name::new("default") {
        Ok(name) => name,
        Err(_) => unreachable!(),
    }
}

fn uuid_of(client: &Client) -> Option<MachineUuid>
    ensures { result ≡ client.now.uuid }
{
    Some(MachineUuid::from(client.uuid?))
}

fn new_machine(id: Number, client: &Client) -> Machine
    ensures { result ≡ new_machine id client.now }
{
    Machine::new(id, client.arch, default_pool(), uuid_of(client))
}

/// The rows of an unknown client's new machine: New, in the pool `default`, with the client's architecture,
/// UUID and address. There are none once all numbers were issued.
pub fn enlist(alloc: Global, client: &Client, numbers: Numbers) -> Result<Change, AllocError>
    ensures { IfOk result (λ change. change ≡ enlisted client.now numbers) }
{
    let mut rows = Vec::new(alloc);
    if let Some(id) = numbers.machine.next() {
        rows.push(RowWrite::PutMachine {
            machine: new_machine(id, client),
            was: None,
        })?;
        rows.push(RowWrite::PutInterface(Interface {
            mac: MacAddress::from(client.mac),
            machine: id,
        }))?;
        rows.push(RowWrite::PutNumbers(Numbers {
            machine: LastIssued::from(id),
            ..numbers
        }))?;
    }
    Ok(Change::from(rows))
}

//! What is read of a server's machine.
ghost use Rattle.desk_adoption.specs.Adoption.{Keeps};

use hall_store::{HallStore, Unavailable};
use hall_types::{Boot, MacAddress, Machine, Number};
use std::alloc::Global;

/// A machine, an address of it, and its current boot.
#[derive(Clone, Copy)]
pub(crate) struct Seen {
    pub(crate) machine: Machine,
    pub(crate) mac: Option<MacAddress>,
    pub(crate) boot: Option<Boot>,
}

fn boot_of<S: HallStore>(store: &mut S, number: Option<Number>) -> Result<Option<Boot>, Unavailable>
    ensures { Keeps S.HallStore store.old store.new }
{
    match number {
        Some(number) => store.boot(number),
        None => Ok(None),
    }
}

fn mac_of<S: HallStore>(
    alloc: Global,
    store: &mut S,
    id: Number,
) -> Result<Option<MacAddress>, Unavailable>
    ensures { Keeps S.HallStore store.old store.new }
{
    let interfaces = store.interfaces_of(alloc, id)?;
    match interfaces.as_slice().first() {
        Some(first) => Ok(Some(first.mac)),
        None => Ok(None),
    }
}

/// What a store has of the machine with a number. Nothing is written.
pub(crate) fn look<S: HallStore>(
    alloc: Global,
    store: &mut S,
    id: Number,
) -> Result<Option<Seen>, Unavailable>
    ensures { Keeps S.HallStore store.old store.new }
{
    let Some(machine) = store.machine(id)? else {
        return Ok(None);
    };
    let mac = mac_of(alloc, store, id)?;
    let boot = boot_of(store, machine.boot)?;
    Ok(Some(Seen { machine, mac, boot }))
}

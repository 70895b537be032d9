//! Calls of the store that are measured: `machine ID` finds its version, `address MAC` and `uuid HEX` the number of the machine,
//! `interfaces ID` how many it has, `digest HEX` an operator, `list` the sum of the machines' numbers; `unknown MAC` finds no machine,
//! and `expired MOMENT` none that has expired; `apply ROW; ROW; ..` makes a change, of the rows that play_store has. What finds
//! one thing, or nothing where that is asked for, and a change count 1.
use cases::{CaseFault, first, parsed};
use hall_store::{HallStore, Unavailable};
use hall_types::{Change, Digest, MacAddress, MachineUuid, Moment, Number};
use play_log::uuid;
use play_store::change;
use std::alloc::Global;

/// A call of a store.
#[derive(Drop)]
pub enum Call {
    Machine(Number),
    Address(MacAddress),
    Unknown(MacAddress),
    Uuid(MachineUuid),
    Interfaces(Number),
    Operator(Digest),
    Expired(Moment),
    List,
    Apply(Change),
}

/// The call that words ask for.
pub fn parse_call(alloc: Global, text: &str) -> Result<Call, CaseFault> {
    let (what, rest) = first(text);
    let found = match what {
        "machine" => Call::Machine(parsed(rest)?),
        "address" => Call::Address(parsed(rest)?),
        "unknown" => Call::Unknown(parsed(rest)?),
        "uuid" => Call::Uuid(uuid(rest)?),
        "interfaces" => Call::Interfaces(parsed(rest)?),
        "digest" => Call::Operator(parsed(rest)?),
        "expired" => Call::Expired(parsed(rest)?),
        "list" => Call::List,
        "apply" => Call::Apply(change(alloc, rest)?),
        _ => return Err(CaseFault::Act),
    };
    Ok(found)
}

// The sum of the machines' numbers.
fn list<S: HallStore>(alloc: Global, store: &mut S) -> Result<u64, Unavailable> {
    let machines = store.machines(alloc)?;
    let numbers = machines.iter().map(|machine| machine.id.get());
    Ok(numbers.fold(0u64, |sum, number| sum.saturating_add(number)))
}

// What a call of the store finds, as a number.
fn found<S: HallStore>(
    alloc: Global,
    store: &mut S,
    call: &Call,
) -> Result<Option<u64>, Unavailable> {
    Ok(match call {
        Call::Machine(id) => store.machine(*id)?.map(|machine| machine.version.get()),
        Call::Address(mac) => store.by_mac(*mac)?.map(|id| id.get()),
        Call::Unknown(mac) => store.by_mac(*mac)?.is_none().then_some(1),
        Call::Uuid(uuid) => store.by_uuid(*uuid)?.map(|id| id.get()),
        Call::Interfaces(id) => Some(store.interfaces_of(alloc, *id)?.len() as u64),
        Call::Operator(digest) => store.operator_by_digest(digest)?.map(|_| 1),
        Call::Expired(moment) => store.next_expired(*moment)?.is_none().then_some(1),
        Call::List => Some(list(alloc, store)?),
        Call::Apply(change) => {
            store.apply(change)?;
            Some(1)
        }
    })
}

/// Calls the store, and counts what it found.
pub fn counted<S: HallStore>(alloc: Global, store: &mut S, call: &Call) -> Result<u64, CaseFault> {
    match found(alloc, store, call) {
        Ok(Some(count)) => Ok(count),
        Ok(None) => Err(CaseFault::Refused),
        Err(Unavailable) => Err(CaseFault::Unavailable),
    }
}

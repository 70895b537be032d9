//! Servers are adopted.
ghost use Rattle.std.specs.{Prelude.{◌≡◌, ◌++◌, List, IfOk}, List.All};
ghost use Rattle.desk_adoption.specs.{Adoption.{AreAdopted, GoesOn, Keeps}, Next.{IsAdoptionItem}, Prelude.{Hall, HasHistory, Item, Origin}};

use crate::checking::all_adopted;
use crate::server::{Adopters, Server};
use crate::steps::adopt_one;
use crate::words::line_of;
use hall_report::Fault;
use hall_store::{HallStore, Unavailable};
use hall_types::{Digest, Moment, Name, Operator, Role};
use pxe_vendor::Place;
use std::alloc::{AllocError, Global};
use std::io::Write;

/// How an adoption ended.
#[derive(Clone, Copy, PartialEq, Eq)]
pub enum Adopted {
    /// Each server's machine is Deployed for the owner with its image.
    All,
    /// One isn't, or a token is no enabled operator's of the role that is needed.
    NotAll,
}

fn enabled<S: HallStore>(store: &mut S, digest: &Digest) -> Result<Option<Operator>, Unavailable>
    ensures { Keeps S.HallStore store.old store.new }
{
    let found = store.operator_by_digest(digest)?;
    match found {
        Some(operator) if operator.enabled => Ok(Some(operator)),
        _ => Ok(None),
    }
}

// Whether a token is an enabled admin's, if one is given.
fn has_admin<S: HallStore>(store: &mut S, adopters: &Adopters) -> Result<bool, Unavailable>
    ensures { Keeps S.HallStore store.old store.new }
{
    let Some(admin) = adopters.admin else {
        return Ok(true);
    };
    match enabled(store, &admin)? {
        Some(operator) => Ok(matches!(operator.role, Role::Admin)),
        None => Ok(false),
    }
}

// Whether a token is that of an enabled operator of role power.
fn has_power<S: HallStore>(store: &mut S, adopters: &Adopters) -> Result<bool, Unavailable>
    ensures { Keeps S.HallStore store.old store.new }
{
    match enabled(store, &adopters.power)? {
        Some(operator) => Ok(matches!(operator.role, Role::Power)),
        None => Ok(false),
    }
}

/// The owner's name, or which token isn't as it has to be.
fn owner_of<S: HallStore>(
    store: &mut S,
    adopters: &Adopters,
) -> Result<Result<Name, &'static str>, Unavailable>
    ensures { Keeps S.HallStore store.old store.new }
{
    if !has_power(store, adopters)? {
        return Ok(Err("the power token is no enabled operator's of role power\n"));
    }
    if !has_admin(store, adopters)? {
        return Ok(Err("the admin token is no enabled admin's\n"));
    }
    match enabled(store, &adopters.owner)? {
        Some(owner) if !matches!(owner.role, Role::Power) => Ok(Ok(owner.name)),
        _ => Ok(Err("the owner token is no enabled admin's or user's\n")),
    }
}

fn adopt_each<S: HallStore, W: Write>(
    alloc: Global,
    store: S,
    place: &Place,
    writer: &mut W,
    adopters: &Adopters,
    owner: &Name,
    servers: &[Server],
    moment: Moment,
) -> (Result<(), Fault>, S)
    ensures clean { S.HallStore.is_clean result.1 → S.HallStore.is_clean store }
    ensures history { S.HallStore.is_clean result.1 → GoesOn S.HallStore store result.1 (IsAdoptionItem place.now adopters.now servers.now moment) }
{
    let mut store = store;
    for server in servers {
        let (end, after) = adopt_one(alloc, store, place, adopters, owner, server, moment);
        store = after;
        let line = line_of(alloc, server, &end);
        drop(end);
        if let Err(fault) = written(writer, line) {
            return (Err(fault), store);
        }
    }
    (Ok(()), store)
}

fn write<W: Write>(writer: &mut W, text: &str) -> Result<(), Fault> {
    match writer.write_all(text.as_bytes()) {
        Ok(()) => Ok(()),
        Err(_) => Err(Fault::Io),
    }
}

fn written<W: Write>(writer: &mut W, line: Result<String, AllocError>) -> Result<(), Fault> {
    let line = line?;
    write(writer, line.as_str())
}

// Whether all are adopted, as the store says.
fn end_of<S: HallStore>(
    store: &mut S,
    adopters: &Adopters,
    servers: &[Server],
) -> Result<Adopted, Fault>
    ensures keeps { Keeps S.HallStore store.old store.new }
    ensures are { S.HallStore.is_clean store.new → IfOk result (λ end. end ≡ Adopted.All → (h : Hall) → S.HallStore.holds store.old h → AreAdopted adopters.now.owner servers.now h) }
{
    match all_adopted(store, &adopters.owner, servers) {
        Ok(true) => Ok(Adopted::All),
        Ok(false) => Ok(Adopted::NotAll),
        Err(Unavailable) => Err(Fault::Unavailable),
    }
}

/// Has the machines of running servers become Deployed for their owner, each with its image, by what comes to a desk of this place: an admin
/// commissions a machine that is New, the owner allocates and deploys it, its orders are answered as done, its script is asked for, its
/// boot reported as done. No machine boots, and none is switched, while no other program serves the hall. A line is written for each server. One that
/// was cut off goes on by the same call: what a machine has got to is read from the hall.
///
/// # Errors
///
/// `Io`, `Memory` and `Unavailable` may come after some servers.
pub fn adopt<S: HallStore, W: Write>(
    alloc: Global,
    store: S,
    place: &Place,
    writer: &mut W,
    adopters: &Adopters,
    servers: &[Server],
    moment: Moment,
) -> (Result<Adopted, Fault>, S)
    ensures clean { S.HallStore.is_clean result.1 → S.HallStore.is_clean store }
    ensures history { S.HallStore.is_clean result.1 → GoesOn S.HallStore store result.1 (IsAdoptionItem place.now adopters.now servers.now moment) }
    ensures adopted { S.HallStore.is_clean result.1 → IfOk result.0 (λ end. end ≡ Adopted.All → (origin : Origin) (past : List Item) → HasHistory S.HallStore store origin past
        → (items : List Item) × All (IsAdoptionItem place.now adopters.now servers.now moment) items
        × ((its : HasHistory S.HallStore result.1 origin (past ++ items)) × AreAdopted adopters.now.owner servers.now its.end)) }
{
    let mut store = store;
    let owner = match owner_of(&mut store, adopters) {
        Ok(Ok(owner)) => owner,
        Ok(Err(words)) => return (write(writer, words).map(|_| Adopted::NotAll), store),
        Err(Unavailable) => return (Err(Fault::Unavailable), store),
    };
    let (each, mut store) = adopt_each(
        alloc, store, place, writer, adopters, &owner, servers, moment,
    );
    if let Err(fault) = each {
        return (Err(fault), store);
    }
    let end = end_of(&mut store, adopters, servers);
    (end, store)
}

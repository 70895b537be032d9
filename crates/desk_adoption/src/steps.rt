//! A server's machine becomes Deployed, one event after the other.
ghost use Rattle.std.specs.{Prelude.{◌≡◌, ◌∷◌, [], IfOk}};
ghost use Rattle.desk_adoption.specs.{Adoption.{GoesOn, Keeps}, Next.{IsAdoptionItem, IsNextOf}};

use crate::carrying::carried;
use crate::looking::look;
use crate::next::{Next, next_for};
use crate::server::{Adopters, Server};
use hall_events::Reply;
use hall_store::{HallStore, Unavailable};
use hall_types::{Moment, Name, Status, Text};
use pxe_vendor::Place;
use std::alloc::Global;

/// What became of a server's machine.
#[derive(Drop)]
pub(crate) enum End {
    /// It is Deployed for its owner with its image.
    Adopted,
    /// The desk refused what came next, by this status and this body.
    Refused { status: u16, body: Text },
    /// Its status isn't on the way there, or the owner or the image is another one.
    Stuck(Status),
    NoMachine,
    Unavailable,
}

// More than any machine needs: three events each for commissioning, testing and deploying, and three commands.
const MAX_EVENTS: u32 = 16;

fn found_next<S: HallStore>(
    alloc: Global,
    store: &mut S,
    adopters: &Adopters,
    owner: &Name,
    server: &Server,
) -> Result<Next, End>
    ensures keeps { Keeps S.HallStore store.old store.new }
    ensures next { IfOk result (λ next. IsNextOf adopters.now server.now next) }
{
    match look(alloc, store, server.machine) {
        Ok(Some(seen)) => match next_for(adopters, owner, server, &seen) {
            Next::Stuck => Err(End::Stuck(seen.machine.status)),
            next => Ok(next),
        },
        Ok(None) => Err(End::NoMachine),
        Err(Unavailable) => Err(End::Unavailable),
    }
}

// Where the desk didn't do it, what became of the machine.
fn end_of(reply: Result<Reply, Unavailable>) -> Option<End> {
    match reply {
        Ok(Reply::Http { status: 200, .. }) => None,
        Ok(Reply::Http { status, body, .. }) => Some(End::Refused { status, body }),
        _ => Some(End::Unavailable),
    }
}

// Carries out what is next for a server's machine: what became of it, where nothing more can come.
fn step<S: HallStore>(
    alloc: Global,
    store: S,
    place: &Place,
    adopters: &Adopters,
    owner: &Name,
    server: &Server,
    moment: Moment,
) -> (Option<End>, S)
    ensures clean { S.HallStore.is_clean result.1 → S.HallStore.is_clean store }
    ensures history { S.HallStore.is_clean result.1 → GoesOn S.HallStore store result.1 (IsAdoptionItem place.now adopters.now (server.now ∷ []) moment) }
{
    let mut store = store;
    match found_next(alloc, &mut store, adopters, owner, server) {
        Ok(Next::Event(event)) => {
            let (reply, store) = carried(alloc, store, place, &event, moment, server.token);
            drop(event);
            (end_of(reply), store)
        }
        Ok(_) => (Some(End::Adopted), store),
        Err(end) => (Some(end), store),
    }
}

/// Has a server's machine become Deployed for its owner, by what comes to the desk of a store's hall: what became of it.
pub(crate) fn adopt_one<S: HallStore>(
    alloc: Global,
    store: S,
    place: &Place,
    adopters: &Adopters,
    owner: &Name,
    server: &Server,
    moment: Moment,
) -> (End, S)
    ensures clean { S.HallStore.is_clean result.1 → S.HallStore.is_clean store }
    ensures history { S.HallStore.is_clean result.1 → GoesOn S.HallStore store result.1 (IsAdoptionItem place.now adopters.now (server.now ∷ []) moment) }
{
    let mut store = store;
    for _ in 0..MAX_EVENTS {
        let (end, after) = step(alloc, store, place, adopters, owner, server, moment);
        store = after;
        if let Some(end) = end {
            return (end, store);
        }
    }
    (End::Unavailable, store)
}

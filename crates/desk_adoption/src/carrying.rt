//! An event is carried out over a store.
ghost use Rattle.desk_adoption.specs.{Adoption.{GoesOn, IsCarriedItem}};

use hall_desk::Desk;
use hall_events::{Event, Reply};
use hall_store::{HallStore, Unavailable};
use hall_types::{Moment, Token};
use pxe_vendor::Place;
use std::alloc::Global;

/// Carries an event out over a store, which is given back.
pub(crate) fn carried<S: HallStore>(
    alloc: Global,
    store: S,
    place: &Place,
    event: &Event,
    moment: Moment,
    fresh: Token,
) -> (Result<Reply, Unavailable>, S)
    ensures clean { S.HallStore.is_clean result.1 → S.HallStore.is_clean store }
    ensures history { S.HallStore.is_clean result.1 → GoesOn S.HallStore store result.1 (IsCarriedItem place.now event.now moment fresh) }
{
    let Ok(place) = Place::new(alloc, place.server(), place.next(), place.host()) else {
        return (Err(Unavailable), store);
    };
    let mut desk = Desk::new(store, place);
    let reply = desk.step(alloc, event, moment, fresh);
    (reply, desk.into_store())
}

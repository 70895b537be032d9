//! What comes to a desk is of its type.
ghost use Rattle.std.specs.Prelude.{◌≡◌};
ghost use Rattle.hall_events.specs.declared.event.Event.TheVariants as event;
ghost use Rattle.hall_laws.specs.Step.{IsTyped};

use hall_events::Event;
use hall_types::{Port, Token};
use pxe_vendor::{Client, Place};

/// An event at a place, and fresh octets.
pub(crate) fn event_is_typed(place: &Place, event: &Event, fresh: Token)
    ensures { IsTyped place.now event.now fresh }
{
    let _ = place.host();
    event.brings_image();
    let _ = fresh.octets();
}

/// A client's frame at a place, and fresh octets.
pub(crate) fn frame_is_typed(place: &Place, port: Port, client: &Client, fresh: Token)
    ensures { IsTyped place.now (event.Frame port client.now) fresh }
{
    let _ = place.host();
    let _ = fresh.octets();
}

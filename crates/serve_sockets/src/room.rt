//! What sockets need of memory, and where it says that something is.
ghost use Rattle.std.specs.Prelude.{◌≡◌, ◌<◌, ◌≤◌, ◌+◌, length};
ghost use Rattle.serve_sockets.specs.{Ring.ready_of, Table.slots_of};

use crate::ring::Ring;
use crate::table::Table;
use crate::waiting::Waiting;
use mio::event::Events;
use mio::net::TcpStream;
use std::alloc::{AllocError, Global};

/// The maximum of a datagram's octets (RFC 768).
const MAX_DATAGRAM: usize = 65_535;

/// The maximum of events that one wait gives: one of each seat, so that a wait leaves no mark out.
const MAX_EVENTS: usize = 1_027;

/// What sockets need of memory.
#[derive(Drop)]
pub(crate) struct Room {
    pub events: Events,
    pub table: Table<TcpStream>,
    pub ring: Ring,
    pub waiting: Waiting,
    pub buffer: Vec<u8>,
    ghost agree: { length (ready_of ring) ≡ length (slots_of table) + 3 },
}

// Room for the octets of a datagram. That it has so many isn't said, since a proof would count them.
fn buffer(alloc: Global) -> Result<Vec<u8>, AllocError> {
    Vec::from_elem(alloc, 0u8, MAX_DATAGRAM)
}

impl Room {
    /// Room for so many connections. None is open.
    pub fn new(alloc: Global, places: usize) -> Result<Room, AllocError>
        requires some { 0 < places }
        requires few { places ≤ 1024 }
    {
        Ok(Room {
            events: Events::with_capacity(alloc, MAX_EVENTS)?,
            table: Table::new(alloc, places)?,
            ring: Ring::new(alloc, places)?,
            waiting: Waiting::new(alloc),
            buffer: buffer(alloc)?,
        })
    }
}

/// Marks the seats of which the events are.
pub(crate) fn mark(ring: &mut Ring, events: &Events)
    ensures { length (ready_of ring.new) ≡ length (ready_of ring.old) }
{
    for event in events {
        ring.mark(event.token().0);
    }
}

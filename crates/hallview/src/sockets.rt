//! What waits for sockets, and where it was told that one may have something.
use crate::fault::ServeFault;
use crate::marks::Marks;
use crate::seats::SEATS;
use mio::event::{Events, Source};
use mio::{Interest, Poll, Token};
use std::alloc::Global;
use std::io;
use std::net::Net;
use std::time::Duration;

/// Sockets that are waited for.
#[derive(Drop)]
pub(crate) struct Sockets {
    poll: Poll,
    events: Events,
    pub(crate) marks: Marks,
}

impl Sockets {
    pub(crate) fn new(net: &impl Net, alloc: Global) -> Result<Sockets, ServeFault> {
        let Ok(poll) = Poll::new(net) else {
            return Err(ServeFault::Wait);
        };
        Ok(Sockets {
            poll,
            events: Events::with_capacity(alloc, SEATS)?,
            marks: Marks::new(alloc)?,
        })
    }

    /// Has a seat marked where something comes to a socket, and when it takes octets.
    pub(crate) fn register<S: Source>(&self, socket: &mut S, seat: usize) -> io::Result<()> {
        let both = Interest::READABLE | Interest::WRITABLE;
        self.poll.registry().register(socket, Token(seat), both)
    }

    /// Marks where something is, or comes within so many milliseconds. Where a seat is marked already, it isn't waited.
    pub(crate) fn wait(&mut self, millis: u64) -> Result<(), ServeFault> {
        let millis = if self.marks.has_any() { 0 } else { millis };
        let time = Duration::from_millis(millis);
        match self.poll.poll(&mut self.events, Some(time)) {
            Ok(()) => {
                self.marks.note(&self.events);
                Ok(())
            }
            Err(_) => Err(ServeFault::Wait),
        }
    }
}

//! The listener, and the connections of clients. Moments and times are milliseconds.
ghost use Rattle.std.specs.Prelude.{◌<◌};

use crate::connection::{Connection, Step};
use crate::fault::ServeFault;
use crate::seats::{LISTENER, MAX_CONNECTIONS, connection_seat};
use crate::service::Pages;
use crate::slots::Slots;
use crate::sockets::Sockets;
use crate::times::until;
use mio::net::{TcpListener, TcpStream};
use std::alloc::Global;
use std::hash::RandomState;
use std::io;
use std::io::ErrorKind;
use std::net::SocketAddr;

/// How long it is waited after an accept that failed, as for want of descriptors.
const RETRY: u64 = 100;

/// How many connections are accepted at most before others are served.
const MAX_ACCEPTED: usize = 32;

/// The listener, and the connections of clients.
#[derive(Drop)]
pub(crate) struct Clients {
    listener: TcpListener,
    keys: RandomState,
    slots: Slots,
    // When it is tried again to accept a connection, after that has failed.
    retry: Option<u64>,
}

impl Clients {
    /// Listens at an address. Port 0 is one that the system picks.
    pub(crate) fn bind(
        rt: &HostRuntime,
        sockets: &Sockets,
        listen: SocketAddr,
    ) -> Result<Clients, ServeFault> {
        let Ok(keys) = RandomState::new(rt) else {
            return Err(ServeFault::Random);
        };
        let Ok(mut listener) = TcpListener::bind(rt, listen) else {
            return Err(ServeFault::Bind(listen));
        };
        if sockets.register(&mut listener, LISTENER).is_err() {
            return Err(ServeFault::Wait);
        }
        Ok(Clients {
            listener,
            keys,
            slots: Slots::new(rt.alloc())?,
            retry: None,
        })
    }

    /// Where the listener is.
    pub(crate) fn address(&self) -> io::Result<SocketAddr> {
        self.listener.local_addr()
    }

    // Puts a connection into a slot. One that can't be waited for is closed.
    fn admit(&mut self, alloc: Global, sockets: &mut Sockets, mut stream: TcpStream, now: u64) {
        let slot = self.slots.slot_for_new();
        let seat = connection_seat(slot);
        if sockets.register(&mut stream, seat).is_ok() {
            let connection = Connection::new(alloc, self.keys, stream, now);
            self.slots.set(slot, Some(connection));
            sockets.marks.mark(seat);
        }
    }

    // Has the listener asked again, some time after it failed.
    fn mark_again(&mut self, sockets: &mut Sockets, now: u64) {
        if let Some(retry) = self.retry {
            if until(now, retry) == 0 {
                self.retry = None;
                sockets.marks.mark(LISTENER);
            }
        }
    }

    /// How many octets the answers have that clients haven't taken whole.
    pub(crate) fn kept(&self) -> usize {
        self.slots.kept()
    }

    /// Accepts connections, as far as some wait.
    pub(crate) fn accept(&mut self, alloc: Global, sockets: &mut Sockets, now: u64) {
        self.mark_again(sockets, now);
        if !sockets.marks.is_marked(LISTENER) {
            return;
        }
        for _ in 0..MAX_ACCEPTED {
            match self.listener.accept() {
                Ok((stream, _)) => self.admit(alloc, sockets, stream, now),
                Err(error) => {
                    sockets.marks.clear(LISTENER);
                    if error.kind() != ErrorKind::WouldBlock {
                        self.retry = Some(now.saturating_add(RETRY));
                    }
                    return;
                }
            }
        }
    }

    // Takes a step of the connection in a slot.
    fn step_at(&mut self, slot: usize, pages: &mut Pages<'_>, sockets: &mut Sockets, now: u64)
        requires { slot < 256 }
    {
        let seat = connection_seat(slot);
        match self.slots.step(slot, pages, now) {
            Step::Moved => (),
            Step::Waits => sockets.marks.clear(seat),
            Step::Ended => {
                self.slots.set(slot, None);
                sockets.marks.clear(seat);
            }
        }
    }

    /// Takes a step of each connection that may have something.
    pub(crate) fn step(&mut self, pages: &mut Pages<'_>, sockets: &mut Sockets, now: u64) {
        for slot in 0..MAX_CONNECTIONS {
            if sockets.marks.is_marked(connection_seat(slot)) {
                self.step_at(slot, pages, sockets, now);
            }
        }
    }

    /// Closes each connection whose client has taken too long.
    pub(crate) fn close_late(&mut self, sockets: &mut Sockets, now: u64) {
        for slot in 0..MAX_CONNECTIONS {
            if self.slots.is_late(slot, now) {
                self.slots.set(slot, None);
                sockets.marks.clear(connection_seat(slot));
            }
        }
    }

    /// The time until there is something to do though nothing comes, and at most this time.
    pub(crate) fn left(&self, now: u64, most: u64) -> u64 {
        let most = match self.retry {
            Some(retry) => most.min(until(now, retry)),
            None => most,
        };
        self.slots.left(now, most)
    }
}

//! The sockets of a service, and its open connections.
ghost use Rattle.std.specs.Prelude.{◌≡◌, ◌<◌, ◌≤◌, ◌+◌, IfErr, IfOk, IfSome, None, Some, length, slice_get, slice_set, vec_len};
ghost use Rattle.serve_sockets.specs.{Ring.{IsPlace, ready_of}, ServedTime.served_of, Serving.IsTurnOf, Stamps.IsPassed, Table.slots_of, Turn.HandsNothing};

use crate::connection::Connection;
use crate::gathering::Client;
use crate::lists::Wanted;
use crate::ports::{Addresses, BindFault, Ports, is_without_descriptors};
use crate::ring::{Origin, Ring};
use crate::room::{Room, mark};
use crate::served_time::ServedTime;
use crate::serving::Step;
use crate::table::{MAX_CONNECTIONS, Table};
use crate::turn::{Close, Source, Turn};
use crate::waiting::Waiting;
use hall_types::Port;
use mio::event::Events;
use mio::net::TcpStream;
use mio::{Interest, Poll, Token};
use std::alloc::Global;
use std::io;
use std::io::ErrorKind;
use std::net::{Net, Shutdown, SocketAddr};
use std::time::Duration;

/// How long, in milliseconds, a turn waits at most while a connection is open, and always where it has no stamp.
pub(crate) const SHORT_PAUSE: u64 = 100;

/// How long, in milliseconds, a turn waits at most before a socket of which a call failed is tried again.
const RETRY_PAUSE: u64 = 10;

/// How long, in milliseconds of served time, it is from one look at all connections for late ones to the next.
const LOOK_PAUSE: u64 = 100;

/// For how many turns at most, within a millisecond of served time, the system isn't asked what is new while something is known to
/// be there.
const LOOK_TURNS: u8 = 32;

/// After how many turns without one a request for a list is handed over, though something else may be there.
const LIST_TURNS: u16 = 1_024;

/// For how many turns at most, from one hand-over to the next, datagrams go before requests that wait.
const DATAGRAM_TURNS: u16 = 1_024;

/// Two sockets for datagrams, a listener, and places for connections, none of which is waited for.
#[derive(Drop)]
pub struct Sockets {
    poll: Poll,
    // Has nothing registered, so that nothing ends a wait for it early.
    still: Poll,
    events: Events,
    /// By which replies are sent.
    pub(crate) ports: Ports,
    pub(crate) table: Table<TcpStream>,
    accepted: u64,
    pub(crate) time: ServedTime,
    // When the system was last asked what is new, and how many turns there were since, up to `LOOK_TURNS`.
    asked_at: u64,
    turns_unasked: u8,
    // When late connections are looked for, and from which slot on.
    look_at: u64,
    look_from: usize,
    pub(crate) ring: Ring,
    // A request was handed over, and no other seat was picked since.
    has_handed: bool,
    // A request for a list may be put off.
    has_put_off: bool,
    // How many turns there were since such a request was called, up to `LIST_TURNS`.
    turns: u16,
    /// The requests that wait to be answered together.
    pub(crate) waiting: Waiting,
    // How many turns there were since some of them were handed over, up to `DATAGRAM_TURNS`.
    turns_after: u16,
    // A receive or an accept failed that may fail again at once.
    is_lame: bool,
    /// What was received last.
    pub(crate) buffer: Vec<u8>,
    ghost agree: { length (ready_of ring) ≡ length (slots_of table) + 3 },
}

impl Sockets {
    ghost use Rattle.serve_sockets.specs.{Own.{IsIn, IsInAfter, NoAnswers}, Sockets.{alone_in, places_of, slots_in}};

    /// Binds the three sockets. Port 0 is one that the system picks. There are so many places for connections, 1 at least and 1,024
    /// at most.
    pub fn bind(
        net: &impl Net,
        alloc: Global,
        addresses: &Addresses,
        places: usize,
    ) -> Result<Sockets, BindFault> {
        let poll = Poll::new(net)?;
        let still = Poll::new(net)?;
        let mut ports = Ports::bind(net, addresses)?;
        ports.register(poll.registry())?;
        let room = Room::new(alloc, places.clamp(1, MAX_CONNECTIONS))?;
        Ok(Sockets::over(poll, still, ports, room))
    }

    fn over(poll: Poll, still: Poll, ports: Ports, room: Room) -> Sockets {
        Sockets {
            poll,
            still,
            events: room.events,
            ports,
            table: room.table,
            accepted: 0,
            time: ServedTime::new(),
            asked_at: 0,
            turns_unasked: 0,
            look_at: 0,
            look_from: 0,
            ring: room.ring,
            has_handed: false,
            has_put_off: false,
            turns: 0,
            waiting: room.waiting,
            turns_after: 0,
            is_lame: false,
            buffer: room.buffer,
        }
    }

    /// Where the discover socket is.
    pub fn discover_address(&self) -> io::Result<SocketAddr> {
        self.ports.discover.local_addr()
    }

    /// Where the boot socket is.
    pub fn boot_address(&self) -> io::Result<SocketAddr> {
        self.ports.boot.local_addr()
    }

    /// Where the listener is.
    pub fn http_address(&self) -> io::Result<SocketAddr> {
        self.ports.listener.local_addr()
    }

    /// How many connections are open.
    pub fn connections(&self) -> usize {
        self.table.count()
    }

    // For how many milliseconds at most something is waited for where nothing is known to be there.
    fn pause<C: Source>(&self, source: &mut C) -> u64
        ensures { C.Source.may_give source.old None source.new }
    {
        let pause = source.pause();
        if self.is_lame {
            pause.min(RETRY_PAUSE)
        } else if self.table.count() == 0 {
            pause
        } else {
            pause.min(SHORT_PAUSE)
        }
    }

    // Whether a request for a list may be put off, and one may be called: not as many lists are open as may be.
    fn may_call(&self) -> bool {
        self.has_put_off && !self.table.has_all_lists()
    }

    // Whether nothing is known to be there, no request waits that may be handed over, and no late connection was closed by the last look.
    fn is_idle(&self) -> bool {
        self.ring.is_idle() && !self.may_call() && self.waiting.count() == 0 && self.look_from == 0
    }

    // Whether the system is to be asked what is new, though something is known to be there: a turn may have taken long since the last time.
    fn is_time_to_ask(&self) -> bool {
        self.turns_unasked >= LOOK_TURNS || self.time.now() != self.asked_at
    }

    /// Marks where something is. Waits for something to come if nothing is known to be there: for the source's pause at most, less
    /// while a connection is open, so that a late one is closed in time. Between two late ones nothing is waited for. Where something is
    /// known to be there, the system is asked for more once a millisecond, or after 32 turns.
    pub(crate) fn wait<C: Source>(&mut self, source: &mut C)
        ensures source { IsPassed C.Source.may_give source.old source.new }
        ensures slots { slots_in self.new ≡ slots_in self.old }
    {
        if self.is_idle() {
            let millis = self.pause(source);
            self.look(millis);
        } else if self.is_time_to_ask() {
            self.look(0);
        }
    }

    /// Marks where something is, or comes within so many milliseconds.
    pub(crate) fn look(&mut self, millis: u64)
        ensures { slots_in self.new ≡ slots_in self.old }
    {
        self.asked_at = self.time.now();
        self.turns_unasked = 0;
        let time = Duration::from_millis(millis);
        if self.poll.poll(&mut self.events, Some(time)).is_ok() {
            mark(&mut self.ring, &self.events);
        }
    }

    /// Waits so many milliseconds, whatever comes.
    pub fn stand_still(&mut self, millis: u64)
        ensures { slots_in self.new ≡ slots_in self.old }
    {
        let time = Duration::from_millis(millis);
        let _ = self.still.poll(&mut self.events, Some(time));
    }

    /// A turn begins, with a tick of so many milliseconds.
    pub(crate) fn begin(&mut self, millis: u64)
        ensures { slots_in self.new ≡ slots_in self.old }
    {
        self.time.pass(millis);
        self.waiting.begin(self.time.now());
        self.turns = self.turns.saturating_add(1).min(LIST_TURNS);
        self.turns_unasked = self.turns_unasked.saturating_add(1).min(LOOK_TURNS);
        self.turns_after = self.turns_after.saturating_add(1).min(DATAGRAM_TURNS);
    }

    /// The served time.
    pub(crate) fn now(&self) -> u64
        ensures { result ≡ served_of self.now.time }
    {
        self.time.now()
    }

    // Whether requests that wait are to be handed over, once no datagram goes before them.
    fn is_due(&self) -> bool {
        self.waiting.is_due(self.time.now(), self.ring.is_idle())
    }

    /// Whether the requests that wait are to be handed over now. Datagrams that may be there go before them, so that none waits for more
    /// than the commit during which it came.
    pub(crate) fn is_group_due(&self) -> bool {
        let is_their_turn = self.turns_after >= DATAGRAM_TURNS || !self.ring.has_port();
        is_their_turn && self.is_due()
    }

    /// Some of the requests that wait are handed over.
    pub(crate) fn hand(&mut self)
        ensures { slots_in self.new ≡ slots_in self.old }
    {
        self.waiting.hand(self.time.now());
        self.turns_after = 0;
    }

    // After a request that was handed over, and before those that are to be, the next socket for datagrams that may have something.
    fn pick_port(&mut self) -> Option<Origin>
        ensures place { IfSome result (IsPlace (places_of self.new)) }
        ensures slots { slots_in self.new ≡ slots_in self.old }
    {
        if !self.has_handed && !self.is_due() {
            return None;
        }
        self.has_handed = false;
        let seat = self.ring.pick_port()?;
        Some(Origin::at(seat))
    }

    // The connection that was accepted first of those whose requests for lists wait, where nothing else may be there or none was
    // called for long, and where not as many lists are open as may be. Its request waits no more.
    fn pick_list(&mut self) -> Option<Origin>
        ensures place { IfSome result (IsPlace (places_of self.new)) }
        ensures places { places_of self.new ≡ places_of self.old }
        ensures answers { NoAnswers (slots_in self.old) (slots_in self.new) }
    {
        let is_time = self.turns >= LIST_TURNS || self.ring.is_idle();
        if !is_time || !self.may_call() {
            return None;
        }
        let Some(slot) = self.table.first_of(Wanted::PutOff) else {
            self.has_put_off = false;
            return None;
        };
        let mut connection = self.table.take(slot)?;
        connection.call(self.time.now());
        self.keep(slot, connection);
        self.turns = 0;
        Some(Origin::Connection(slot))
    }

    /// The next seat that may have something: a socket for datagrams beside requests that are handed over, a connection whose request
    /// for a list is called, or the next one of all seats.
    pub(crate) fn pick(&mut self) -> Option<Origin>
        ensures place { IfSome result (IsPlace (places_of self.new)) }
        ensures answers { NoAnswers (slots_in self.old) (slots_in self.new) }
    {
        if let Some(port) = self.pick_port() {
            return Some(port);
        }
        if let Some(list) = self.pick_list() {
            return Some(list);
        }
        let seat = self.ring.pick()?;
        Some(Origin::at(seat))
    }

    /// A seat has nothing more now.
    pub(crate) fn rest(&mut self, origin: Origin)
        requires { IsPlace (places_of self.old) origin }
        ensures slots { slots_in self.new ≡ slots_in self.old }
        ensures alone { alone_in self.new ≡ alone_in self.old }
    {
        self.ring.clear(origin.seat());
    }

    /// Has the sockets of which a call failed asked again.
    pub(crate) fn retry(&mut self)
        ensures { slots_in self.new ≡ slots_in self.old }
    {
        if self.is_lame {
            self.is_lame = false;
            self.ring.mark(Origin::Port(Port::Discover).seat());
            self.ring.mark(Origin::Port(Port::Boot).seat());
            self.ring.mark(Origin::Listener.seat());
        }
    }

    // A seat gave nothing.
    fn missed(&mut self, origin: Origin, error: &io::Error) -> Turn
        requires { IsPlace (places_of self.old) origin }
        ensures none { HandsNothing result }
        ensures slots { slots_in self.new ≡ slots_in self.old }
    {
        self.rest(origin);
        if error.kind() == ErrorKind::WouldBlock {
            return Turn::Nothing;
        }
        self.is_lame = true;
        Turn::Failed
    }

    /// Receives a datagram into the buffer: how many octets, and where it came from.
    pub(crate) fn receive(&mut self, port: Port) -> Result<(usize, SocketAddr), Turn>
        ensures within { IfOk result (λ received. received.0 ≤ vec_len self.new.buffer) }
        ensures none { IfErr result HandsNothing }
        ensures slots { slots_in self.new ≡ slots_in self.old }
    {
        match self.ports.receive(port, self.buffer.as_mut_slice()) {
            Ok(received) => Ok(received),
            Err(error) => Err(self.missed(Origin::Port(port), &error)),
        }
    }

    /// Accepts a connection.
    pub(crate) fn accept(&mut self, alloc: Global) -> Turn
        ensures none { HandsNothing result }
        ensures answers { NoAnswers (slots_in self.old) (slots_in self.new) }
    {
        match self.ports.listener.accept() {
            Ok((stream, from)) => self.admit(alloc, stream, from),
            Err(error) if is_without_descriptors(&error) => self.make_room(&error),
            Err(error) => self.missed(Origin::Listener, &error),
        }
    }

    fn admit(&mut self, alloc: Global, mut stream: TcpStream, from: SocketAddr) -> Turn
        ensures none { HandsNothing result }
        ensures answers { NoAnswers (slots_in self.old) (slots_in self.new) }
    {
        let slot = self.table.slot_for_new();
        let seat = Origin::Connection(slot).seat();
        let both = Interest::READABLE | Interest::WRITABLE;
        let registry = self.poll.registry();
        if registry.register(&mut stream, Token(seat), both).is_err() {
            return Turn::Failed;
        }
        self.accepted = self.accepted.saturating_add(1);
        let connection = Connection::new(alloc, stream, from, self.accepted, self.time.now());
        let instead_of = self.table.open(slot, connection);
        self.ring.mark(seat);
        Turn::Accepted { from, instead_of }
    }

    // Closes the connection that goes where there is no descriptor for another one, which is tried again at the next turn.
    fn make_room(&mut self, error: &io::Error) -> Turn
        ensures none { HandsNothing result }
        ensures answers { NoAnswers (slots_in self.old) (slots_in self.new) }
    {
        let slot = self.table.yielding();
        match self.table.take(slot) {
            Some(connection) => self.close(slot, connection, Close::Crowded),
            None => self.missed(Origin::Listener, error),
        }
    }

    /// Closes the next connection that is late, if there is one. One whose seat is marked is asked before. All are looked at once
    /// in 100 milliseconds of served time.
    pub(crate) fn close_late(&mut self) -> Option<Turn>
        ensures none { IfSome result HandsNothing }
        ensures answers { NoAnswers (slots_in self.old) (slots_in self.new) }
    {
        let now = self.time.now();
        if now < self.look_at {
            return None;
        }
        let late = self
            .table
            .late(self.ring.connections(), now, self.look_from);
        let Some(slot) = late else {
            self.look_at = now.saturating_add(LOOK_PAUSE);
            self.look_from = 0;
            return self.close_slow(now);
        };
        self.look_from = slot + 1;
        let connection = self.take(slot)?;
        Some(Turn::Closed {
            from: connection.from(),
            cause: Close::Late,
        })
    }

    // Closes the first accepted connection whose list was called longer than a minute ago, where as many lists are open as may be and
    // others wait.
    fn close_slow(&mut self, now: u64) -> Option<Turn>
        ensures none { IfSome result HandsNothing }
        ensures answers { NoAnswers (slots_in self.old) (slots_in self.new) }
    {
        if self.may_call() || self.table.first_of(Wanted::PutOff).is_none() {
            return None;
        }
        let slot = self.table.first_of(Wanted::Slow { now })?;
        let connection = self.take(slot)?;
        Some(self.close(slot, connection, Close::Late))
    }

    /// The connection of a slot, which is free then.
    pub(crate) fn take(&mut self, slot: usize) -> Option<Connection<TcpStream>>
        requires { slot < places_of self.old }
        ensures taken { slice_get (slots_in self.old) slot ≡ Some result }
        ensures free { slots_in self.new ≡ slice_set (slots_in self.old) slot None }
        ensures places { places_of self.new ≡ places_of self.old }
    {
        self.table.take(slot)
    }

    /// Closes a connection that was taken out of its slot.
    pub(crate) fn close(
        &mut self,
        slot: usize,
        connection: Connection<TcpStream>,
        cause: Close,
    ) -> Turn
        requires { slot < places_of self.old }
        ensures turn { HandsNothing result }
        ensures slots { slots_in self.new ≡ slots_in self.old }
        ensures alone { alone_in self.new ≡ alone_in self.old }
    {
        self.rest(Origin::Connection(slot));
        Turn::Closed {
            from: connection.from(),
            cause,
        }
    }

    /// The turn of a step of a connection, which is kept if the step neither was the last one nor failed, unless it gave nothing
    /// and is late.
    pub(crate) fn settle(
        &mut self,
        slot: usize,
        connection: Connection<TcpStream>,
        step: Step,
    ) -> Turn
        requires { slot < places_of self.old }
        ensures turn { IsTurnOf step result }
        ensures put { IsInAfter (slots_in self.old) (slots_in self.new) step slot connection }
        ensures places { places_of self.new ≡ places_of self.old }
    {
        match step {
            Step::Handed(handover) => {
                self.keep(slot, connection);
                self.ring.mark(Origin::Connection(slot).seat());
                self.has_handed = true;
                Turn::Handed(handover)
            }
            Step::PutOff => {
                let from = connection.from();
                self.keep(slot, connection);
                self.rest(Origin::Connection(slot));
                self.has_put_off = true;
                Turn::PutOff(from)
            }
            Step::Decided => self.wait_last(Client { slot, connection }),
            Step::Moved => {
                let from = connection.from();
                self.keep(slot, connection);
                Turn::Moved(from)
            }
            Step::Waits if connection.is_late(self.time.now()) => {
                self.close(slot, connection, Close::Late)
            }
            Step::Waits => {
                self.keep(slot, connection);
                self.rest(Origin::Connection(slot));
                Turn::Nothing
            }
            Step::Done => {
                let _ = connection.stream().shutdown(Shutdown::Write);
                self.close(slot, connection, Close::Answered)
            }
            Step::Failed => self.close(slot, connection, Close::Failed),
        }
    }

    /// Puts a connection back into its slot.
    pub(crate) fn keep(&mut self, slot: usize, connection: Connection<TcpStream>)
        requires { slot < places_of self.old }
        ensures put { IsIn (slots_in self.old) (slots_in self.new) slot connection }
        ensures places { places_of self.new ≡ places_of self.old }
        ensures alone { alone_in self.new ≡ alone_in self.old }
    {
        let _ = self.table.open(slot, connection);
    }
}

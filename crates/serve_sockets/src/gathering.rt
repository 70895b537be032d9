//! Requests that are answered together, each with the connection that its client has.
ghost use Rattle.std.specs.Prelude.{◌≡◌, ◌≤◌, ◌<◌, ◌++◌, ◌∷◌, [], IfOk, vec_capacity, vec_len};
ghost use Rattle.std.specs.VecDeque.{deque_capacity, deque_len};

use crate::connection::Connection;
use crate::ring::Origin;
use crate::sockets::Sockets;
use crate::turn::{Close, Source, Turn};
use crate::waiting::MAX_GROUP;
use hall_desk::{Arrival, Input};
use mio::net::TcpStream;
use std::alloc::{AllocError, Global};
use std::collections::VecDeque;

/// A connection that was taken out of its slot.
#[derive(Drop)]
pub(crate) struct Client {
    pub(crate) slot: usize,
    pub(crate) connection: Connection<TcpStream>,
}

/// Requests in the order in which they came, each with its client.
#[derive(Drop)]
pub(crate) struct Gathered {
    pub(crate) arrivals: Vec<Arrival>,
    pub(crate) clients: VecDeque<Client>,
}

impl Gathered {
    /// Room for so many.
    pub(crate) fn new(alloc: Global, most: usize) -> Result<Gathered, AllocError>
        ensures arrivals { IfOk result (λ gathered. gathered.arrivals.items ≡ []) }
        ensures clients { IfOk result (λ gathered. gathered.clients.items ≡ []) }
        ensures room { IfOk result (λ gathered. most ≤ vec_capacity gathered.arrivals) }
        ensures places { IfOk result (λ gathered. most ≤ deque_capacity gathered.clients) }
    {
        Ok(Gathered {
            arrivals: Vec::with_capacity(alloc, most)?,
            clients: VecDeque::with_capacity(alloc, most)?,
        })
    }

    /// One more, for which there is room.
    pub(crate) fn add(&mut self, arrival: Arrival, client: Client)
        requires room { vec_len self.old.arrivals < vec_capacity self.old.arrivals }
        requires places { deque_len self.old.clients < deque_capacity self.old.clients }
        ensures arrivals { self.new.arrivals.items ≡ self.old.arrivals.items ++ arrival ∷ [] }
        ensures clients { self.new.clients.items ≡ self.old.clients.items ++ client ∷ [] }
        ensures room { vec_capacity self.new.arrivals ≡ vec_capacity self.old.arrivals }
        ensures places { deque_capacity self.new.clients ≡ deque_capacity self.old.clients }
    {
        self.arrivals.push_reserved(arrival);
        self.clients.push_back_reserved(client);
    }
}

impl Sockets {
    ghost use Rattle.std.specs.Prelude.{◌+◌, ℕ, List, Option, IfNone, IfSome, OnErr};
    ghost use Rattle.serve_sockets.specs.{Gathering.IsGathered, Own.{IsFreed, IsInOrClosed, IsOut, IsPart}, Prelude.TcpStream, Sockets.{alone_in, places_of, slots_in}, Turn.HandsNothing, declared.connection.Connection.Connection};

    /// Whether the first of the requests that wait is handed over alone.
    pub(crate) fn has_lone(&self) -> bool {
        self.waiting.has_lone()
    }

    /// So many of the first requests that wait are handed over alone, one after the other.
    pub(crate) fn separate(&mut self, count: usize)
        ensures slots { slots_in self.new ≡ slots_in self.old }
        ensures alone { alone_in self.new ≡ count }
    {
        self.waiting.separate(count);
    }

    /// The client whose request waits longest, taken out of its slot; none if that has another one by now.
    pub(crate) fn next_whole(&mut self) -> Option<Client>
        ensures out { IfSome result (λ client. IsOut (slots_in self.old) (slots_in self.new) client.slot client.connection) }
        ensures within { IfSome result (λ client. client.slot < places_of self.new) }
        ensures none { IfNone result (IsFreed (slots_in self.old) (slots_in self.new)) }
        ensures places { places_of self.new ≡ places_of self.old }
    {
        let slot = self.waiting.next()?;
        if !self.table.is_whole(slot) {
            return None;
        }
        let connection = self.table.take(slot)?;
        Some(Client { slot, connection })
    }

    // Keeps a client whose request waits. Where there was no memory for that, its connection is closed.
    fn keep_waiting(&mut self, client: Client, is_added: bool) -> Turn
        requires { client.slot < places_of self.old }
        ensures turn { HandsNothing result }
        ensures put { IsInOrClosed (slots_in self.old) (slots_in self.new) client.slot client.connection }
        ensures alone { alone_in self.new ≡ alone_in self.old }
    {
        let Client { slot, connection } = client;
        if !is_added {
            return self.close(slot, connection, Close::Failed);
        }
        let from = connection.from();
        self.keep(slot, connection);
        self.rest(Origin::Connection(slot));
        Turn::Decided(from)
    }

    /// Has a request wait after the others that do. Without memory for that its connection is closed.
    pub(crate) fn wait_last(&mut self, client: Client) -> Turn
        requires { client.slot < places_of self.old }
        ensures turn { HandsNothing result }
        ensures put { IsInOrClosed (slots_in self.old) (slots_in self.new) client.slot client.connection }
    {
        let is_added = self.waiting.add(client.slot, self.time.now()).is_ok();
        self.keep_waiting(client, is_added)
    }

    /// Has a request that had waited wait again, before the others. Without memory for that its connection is closed.
    pub(crate) fn put_back(&mut self, client: Client) -> Turn
        requires { client.slot < places_of self.old }
        ensures turn { HandsNothing result }
        ensures put { IsInOrClosed (slots_in self.old) (slots_in self.new) client.slot client.connection }
    {
        let is_added = self.waiting.put_back(client.slot, self.time.now()).is_ok();
        self.keep_waiting(client, is_added)
    }

    // Gathers the next of the requests that wait, with a stamp of its own. It waits on where there is no tick, or no memory for it.
    fn gather_next<C: Source>(&mut self, source: &mut C, gathered: &mut Gathered)
        requires room { vec_len gathered.old.arrivals < vec_capacity gathered.old.arrivals }
        requires seats { deque_len gathered.old.clients < deque_capacity gathered.old.clients }
        ensures gathered { (from : C) (most : ℕ) (slots : List (Option (Connection TcpStream))) → IsPart slots (slots_in self.old)
            → IsGathered C.Source.may_give from source.old slots (slots_in self.old) most gathered.old
            → IsGathered C.Source.may_give from source.new slots (slots_in self.new) (most + 1) gathered.new }
        ensures part { IsPart (slots_in self.old) (slots_in self.new) }
        ensures room { vec_capacity gathered.new.arrivals ≡ vec_capacity gathered.old.arrivals }
        ensures seats { deque_capacity gathered.new.clients ≡ deque_capacity gathered.old.clients }
    {
        let Some(client) = self.next_whole() else {
            return;
        };
        let Some(request) = client.connection.shared_request() else {
            self.put_back(client);
            return;
        };
        let Some(tick) = source.tick() else {
            self.put_back(client);
            return;
        };
        let arrival = Arrival {
            moment: tick.stamp.moment,
            fresh: tick.stamp.fresh,
            input: Input::Request(request),
        };
        gathered.add(arrival, client);
    }

    /// The requests that wait, up to the maximum of a group.
    pub(crate) fn gather<C: Source>(
        &mut self,
        alloc: Global,
        source: &mut C,
    ) -> Result<Gathered, AllocError>
        ensures gathered { IfOk result (IsGathered C.Source.may_give source.old source.new (slots_in self.old) (slots_in self.new) 64) }
        ensures part { IsPart (slots_in self.old) (slots_in self.new) }
        ensures same { OnErr result (source.new ≡ source.old) }
    {
        let few = self.waiting.count().min(MAX_GROUP);
        let mut gathered = Gathered::new(alloc, few)?;
        'few: for index in 0..few {
            self.gather_next(source, &mut gathered);
        }
        Ok(gathered)
    }
}

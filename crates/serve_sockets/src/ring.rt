//! Whose turn it is.
ghost use Rattle.std.specs.Prelude.{◌≡◌, ◌<◌, ◌≤◌, ◌+◌, ◌↔◌, All, drop, false, IfNone, IfOk, IfSome, IsTrue, length, replicate, take, true, vec_len};
ghost use Rattle.serve_sockets.specs.Marks.{AreCounts, count_set};

use crate::next_ready::{first_ready, next_ready};
use hall_types::Port;
use std::alloc::{AllocError, Global};

/// The seats of the sockets for datagrams, which are the first ones.
const PORTS: usize = 2;

/// The seats before those of connections: two sockets for datagrams, and the listener.
const OTHERS: usize = 3;

/// How many seats a block has, whose marks are counted.
const BLOCK: usize = 64;

/// How many blocks there are: 1,027 seats are at most so many.
const BLOCKS: usize = 17;

/// What a seat stands for.
#[derive(Clone, Copy)]
pub(crate) enum Origin {
    Port(Port),
    Listener,
    Connection(usize),
}

impl Origin {
    ghost use Rattle.serve_sockets.specs.Ring.{IsAt, IsOpenable};

    /// What a seat stands for.
    pub(crate) fn at(seat: usize) -> Origin
        requires { seat < 1027 }
        ensures { IsAt seat result }
    {
        match seat {
            0 => Origin::Port(Port::Discover),
            1 => Origin::Port(Port::Boot),
            2 => Origin::Listener,
            _ => Origin::Connection(seat - OTHERS),
        }
    }

    /// The seat.
    pub(crate) fn seat(self) -> usize
        requires { IsOpenable self }
        ensures seat { IsAt result self }
        ensures within { result < 1027 }
    {
        match self {
            Origin::Port(Port::Discover) => 0,
            Origin::Port(Port::Boot) => 1,
            Origin::Listener => 2,
            Origin::Connection(slot) => slot + OTHERS,
        }
    }
}

/// Which seats may have something, and from which one the next ready seat is looked for, of all and of the sockets for datagrams
/// alone. Contracts see all three. How many seats are marked, of each block and of all, says where there is
/// nothing to look for.
#[derive(Drop)]
pub(crate) struct Ring {
    ready: Vec<bool>,
    counts: [u8; BLOCKS],
    total: u16,
    next: usize,
    port: usize,
    ghost some: { 3 ≤ vec_len ready },
    ghost few: { vec_len ready ≤ 1027 },
    ghost counted: { AreCounts ready.items counts },
    ghost all: { total ≡ count_set ready.items 0 1027 },
}

impl Ring {
    ghost use Rattle.serve_sockets.specs.{Marks.{AreClear, IsFirst}, Ring.{IsNext, next_of, port_of, ready_of, with_seat}};

    /// The seats for so many connections. None is marked.
    pub(crate) fn new(alloc: Global, places: usize) -> Result<Ring, AllocError>
        requires { places ≤ 1024 }
        ensures { IfOk result (λ ring. ready_of ring ≡ replicate (places + 3) false) }
    {
        let ready = Vec::from_elem(alloc, false, places + OTHERS)?;
        Ok(Ring {
            ready,
            counts: [0; BLOCKS],
            total: 0,
            next: 0,
            port: 0,
        })
    }

    // Sets the mark of a seat, if there is such a seat, and counts it.
    fn set(&mut self, seat: usize, is: bool)
        ensures ready { ready_of self.new ≡ with_seat (ready_of self.old) seat is }
        ensures size { length (ready_of self.new) ≡ length (ready_of self.old) }
        ensures next { next_of self.new ≡ next_of self.old }
    {
        if seat < self.ready.len() && self.ready[seat] != is {
            self.ready[seat] = is;
            let block = seat / BLOCK;
            if is {
                self.counts[block] += 1;
                self.total += 1;
            } else {
                self.counts[block] -= 1;
                self.total -= 1;
            }
        }
    }

    /// A seat may have something, if there is such a seat.
    pub(crate) fn mark(&mut self, seat: usize)
        ensures ready { ready_of self.new ≡ with_seat (ready_of self.old) seat true }
        ensures size { length (ready_of self.new) ≡ length (ready_of self.old) }
        ensures next { next_of self.new ≡ next_of self.old }
    {
        self.set(seat, true);
    }

    /// A seat has nothing.
    pub(crate) fn clear(&mut self, seat: usize)
        ensures ready { ready_of self.new ≡ with_seat (ready_of self.old) seat false }
        ensures size { length (ready_of self.new) ≡ length (ready_of self.old) }
        ensures next { next_of self.new ≡ next_of self.old }
    {
        self.set(seat, false);
    }

    /// The marks of the connections' seats.
    pub(crate) fn connections(&self) -> &[bool]
        ensures { result.now ≡ drop 3 (ready_of self.now) }
    {
        let (_, connections) = self.ready.as_slice().split_at(OTHERS);
        connections
    }

    /// Whether no seat may have something.
    pub(crate) fn is_idle(&self) -> bool
        ensures { IsTrue result → All (λ is. is ≡ false) (ready_of self.now) }
    {
        self.total == 0
    }

    /// Whether a socket for datagrams may have something.
    pub(crate) fn has_port(&self) -> bool
        ensures { result ≡ false → All (λ is. is ≡ false) (take 2 (ready_of self.now)) }
    {
        let (ports, _) = self.ready.as_slice().split_at(PORTS);
        first_ready(ports, 0, PORTS).is_some()
    }

    /// The next ready socket for datagrams. The one after it is asked first at the next call, and all seats go on where they were.
    pub(crate) fn pick_port(&mut self) -> Option<usize>
        ensures next { IfSome result (IsNext (take 2 (ready_of self.old)) (port_of self.old)) }
        ensures within { IfSome result (λ seat. seat < 2) }
        ensures after { IfSome result (λ seat. port_of self.new ≡ seat + 1) }
        ensures none { IfNone result (All (λ is. is ≡ false) (take 2 (ready_of self.old))) }
        ensures same { ready_of self.new ≡ ready_of self.old }
        ensures goes_on { next_of self.new ≡ next_of self.old }
    {
        let (ports, _) = self.ready.as_slice().split_at(PORTS);
        let seat = next_ready(ports, self.port)?;
        self.port = seat + 1;
        Some(seat)
    }

    // The first ready seat from `from` on. A block of which none is marked isn't looked through.
    fn first_from(&self, from: usize) -> Option<usize>
        ensures first { IfSome result (IsFirst (ready_of self.now) from) }
        ensures none { IfNone result (AreClear (ready_of self.now) from (length (ready_of self.now))) }
    {
        let ready = self.ready.as_slice();
        for block in from / BLOCK..BLOCKS {
            if self.counts[block] != 0 {
                let start = BLOCK * block;
                if let Some(seat) = first_ready(ready, from.max(start), start + BLOCK) {
                    return Some(seat);
                }
            }
        }
        None
    }

    /// The next ready seat. The one after it is asked first at the next call.
    pub(crate) fn pick(&mut self) -> Option<usize>
        ensures next { IfSome result (IsNext (ready_of self.old) (next_of self.old)) }
        ensures within { IfSome result (λ seat. seat < length (ready_of self.old)) }
        ensures after { IfSome result (λ seat. next_of self.new ≡ seat + 1) }
        ensures none { IfNone result (All (λ is. is ≡ false) (ready_of self.old)) }
        ensures same { ready_of self.new ≡ ready_of self.old }
    {
        if self.is_idle() {
            return None;
        }
        let seat = match self.first_from(self.next) {
            Some(seat) => seat,
            None => self.first_from(0)?,
        };
        self.next = seat + 1;
        Some(seat)
    }
}

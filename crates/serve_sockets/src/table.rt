//! The open connections.
ghost use Rattle.std.specs.Prelude.{◌≡◌, ◌<◌, ◌≤◌, count_by, is_some, vec_len};

use crate::connection::Connection;
use crate::lists::{Wanted, first_of, open_lists};
use crate::slots::{held_at, is_late_held, is_marked};
use crate::yielding::yielding;
use std::alloc::{AllocError, Global};
use std::mem;
use std::net::SocketAddr;

/// The maximum of places for connections.
pub const MAX_CONNECTIONS: usize = 1_024;

/// The maximum of lists that are open: that were called, and that their clients haven't taken.
const MAX_LISTS: usize = 8;

/// A slot for each open connection that there may be.
#[derive(Drop)]
pub(crate) struct Table<T> {
    slots: Vec<Option<Connection<T>>>,
    taken: usize,
    ghost some: { 0 < vec_len slots },
    ghost few: { vec_len slots ≤ 1024 },
    ghost counted: { taken ≡ count_by is_some slots.items },
}

impl<T: Drop> Table<T> {
    ghost use Rattle.std.specs.Prelude.{IfNone, IfOk, IfSome, MatchOption, None, Some, ◌==◌, is_none, length, true, nat_le, position, replicate, slice_get, slice_set};
    ghost use Rattle.serve_sockets.specs.{Table.{IsNextLate, NoneLate, late_at, slots_of}, Lists.{IsFirst, is_open, wants_in}, Yielding.Goes};

    /// So many slots, all of which are free.
    pub(crate) fn new(alloc: Global, places: usize) -> Result<Table<T>, AllocError>
        requires some { 0 < places }
        requires few { places ≤ 1024 }
        ensures { IfOk result (λ table. slots_of table ≡ replicate places None) }
    {
        let mut slots = Vec::with_capacity(alloc, places)?;
        for _ in 0..places {
            slots.push(None)?;
        }
        Ok(Table { slots, taken: 0 })
    }

    // Whether a slot's seat isn't marked and its connection was undecided, or its answer stood still, for two seconds of served
    // time.
    fn is_late(&self, marks: &[bool], now: u64, slot: usize) -> bool
        ensures { result ≡ late_at (slots_of self.now) marks.now now slot }
    {
        !is_marked(marks, slot) && is_late_held(held_at(self.slots.as_slice(), slot), now)
    }

    /// The first slot from this one on whose connection is late, where its seat isn't marked.
    pub(crate) fn late(&self, marks: &[bool], now: u64, from: usize) -> Option<usize>
        ensures next { IfSome result (IsNextLate (slots_of self.now) marks.now now from) }
        ensures none { IfNone result (NoneLate (slots_of self.now) marks.now now from) }
    {
        for slot in from..self.slots.len() {
            if self.is_late(marks, now, slot) {
                return Some(slot);
            }
        }
        None
    }

    // The first free slot.
    fn free(&self) -> Option<usize>
        ensures { result ≡ position is_none (slots_of self.now) }
    {
        self.slots.iter().position(|slot| match slot {
            Some(_) => false,
            None => true,
        })
    }

    /// The slot of the connection that goes where there is no room for another one.
    pub(crate) fn yielding(&self) -> usize
        ensures within { result < length (slots_of self.now) }
        ensures goes { Goes (slots_of self.now) result }
    {
        yielding(self.slots.as_slice())
    }

    /// The first free slot, or else that of the connection that goes.
    pub(crate) fn slot_for_new(&self) -> usize
        ensures within { result < length (slots_of self.now) }
        ensures slot { MatchOption (position is_none (slots_of self.now)) (Goes (slots_of self.now) result) (λ slot. result ≡ slot) }
    {
        match self.free() {
            Some(slot) => slot,
            None => self.yielding(),
        }
    }

    /// The slot whose connection was accepted before the others of those that are wanted.
    pub(crate) fn first_of(&self, wanted: Wanted) -> Option<usize>
        ensures first { IfSome result (IsFirst wanted (slots_of self.now)) }
        ensures none { IfNone result (position (wants_in wanted) (slots_of self.now) ≡ None) }
    {
        first_of(wanted, self.slots.as_slice())
    }

    /// Whether as many lists are open as may be.
    pub(crate) fn has_all_lists(&self) -> bool
        ensures { result ≡ nat_le 8 (count_by is_open (slots_of self.now)) }
    {
        open_lists(self.slots.as_slice()) >= MAX_LISTS
    }

    // Has a slot hold this in place of what it held.
    fn hold(&mut self, slot: usize, held: Option<Connection<T>>) -> Option<Connection<T>>
        requires { slot < length (slots_of self.old) }
        ensures before { slice_get (slots_of self.old) slot ≡ Some result }
        ensures after { slots_of self.new ≡ slice_set (slots_of self.old) slot held }
    {
        self.taken += usize::from(held.is_some());
        let before = mem::replace(&mut self.slots[slot], held);
        self.taken -= usize::from(before.is_some());
        before
    }

    /// Puts a connection into a slot, and closes the one that is there. Says where that one's client is.
    pub(crate) fn open(&mut self, slot: usize, connection: Connection<T>) -> Option<SocketAddr>
        requires { slot < length (slots_of self.old) }
        ensures { slots_of self.new ≡ slice_set (slots_of self.old) slot (Some connection) }
    {
        let before = self.hold(slot, Some(connection));
        before.map(|connection| connection.from())
    }

    /// The connection of a slot, which is free then.
    pub(crate) fn take(&mut self, slot: usize) -> Option<Connection<T>>
        requires { slot < length (slots_of self.old) }
        ensures taken { slice_get (slots_of self.old) slot ≡ Some result }
        ensures free { slots_of self.new ≡ slice_set (slots_of self.old) slot None }
    {
        self.hold(slot, None)
    }

    /// Whether a slot has a connection whose request waits to be answered with others.
    pub(crate) fn is_whole(&self, slot: usize) -> bool
        ensures { result ≡ true → slot < length (slots_of self.now) }
    {
        match held_at(self.slots.as_slice(), slot) {
            Some(Some(connection)) => connection.is_whole(),
            _ => false,
        }
    }

    /// How many slots there are.
    pub(crate) fn places(&self) -> usize
        ensures { result ≡ length (slots_of self.now) }
    {
        self.slots.len()
    }

    /// How many connections are open.
    pub(crate) fn count(&self) -> usize
        ensures { result ≡ count_by is_some (slots_of self.now) }
    {
        self.taken
    }
}

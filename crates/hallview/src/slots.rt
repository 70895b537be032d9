//! The slots of connections.
ghost use Rattle.std.specs.Prelude.{◌≡◌, ◌<◌, ◌≤◌, IfOk, length, vec_len};
ghost use Rattle.hallview.specs.Slots.{GoesFirst, rank_at};

use crate::connection::{Connection, Step};
use crate::seats::MAX_CONNECTIONS;
use crate::service::Pages;
use std::alloc::{AllocError, Global};

/// A slot for each connection that there may be.
#[derive(Drop)]
pub(crate) struct Slots {
    held: Vec<Option<Connection>>,
    ghost some: { 0 < vec_len held },
    ghost few: { vec_len held ≤ 256 },
}

// How early a slot is taken for another connection: a free one first, and then by when octets were last read or written.
fn rank_at(slots: &[Option<Connection>], slot: usize) -> u64
    ensures { result ≡ rank_at slots.now slot }
{
    match slots.get(slot) {
        Some(Some(connection)) => connection.moved.saturating_add(1),
        Some(None) => 0,
        None => u64::MAX,
    }
}

// The slot that is taken first.
fn first_to_go(slots: &[Option<Connection>]) -> usize
    requires { 0 < length slots.now }
    ensures within { result < length slots.now }
    ensures first { GoesFirst slots.now result }
{
    let mut first = 0;
    for slot in 1..slots.len() {
        if rank_at(slots, slot) < rank_at(slots, first) {
            first = slot;
        }
    }
    first
}

// So many free slots.
fn free(alloc: Global, count: usize) -> Result<Vec<Option<Connection>>, AllocError>
    ensures { IfOk result (λ free. vec_len free ≡ count) }
{
    let mut free = Vec::with_capacity(alloc, count)?;
    for _ in 0..count {
        free.push(None)?;
    }
    Ok(free)
}

// Takes a step of a connection, if there is one.
fn step_of(held: &mut Option<Connection>, pages: &mut Pages<'_>, now: u64) -> Step {
    match held {
        Some(connection) => connection.step(pages, now),
        None => Step::Waits,
    }
}

impl Slots {
    /// Slots all of which are free.
    pub(crate) fn new(alloc: Global) -> Result<Slots, AllocError> {
        Ok(Slots {
            held: free(alloc, MAX_CONNECTIONS)?,
        })
    }

    /// The first free slot, or else that of the connection that has been idle longest.
    pub(crate) fn slot_for_new(&self) -> usize
        ensures within { result < 256 }
        ensures first { GoesFirst self.now.held.items result }
    {
        first_to_go(self.held.as_slice())
    }

    /// Puts a connection into a slot, or frees it. A connection that was there is closed.
    pub(crate) fn set(&mut self, slot: usize, connection: Option<Connection>) {
        if let Some(held) = self.held.get_mut(slot) {
            *held = connection;
        }
    }

    /// Takes a step of the connection in a slot.
    pub(crate) fn step(&mut self, slot: usize, pages: &mut Pages<'_>, now: u64) -> Step {
        match self.held.get_mut(slot) {
            Some(held) => step_of(held, pages, now),
            None => Step::Waits,
        }
    }

    /// Whether the client of a slot has taken too long.
    pub(crate) fn is_late(&self, slot: usize, now: u64) -> bool {
        match self.held.get(slot) {
            Some(Some(connection)) => connection.is_late(now),
            _ => false,
        }
    }

    /// How many octets the answers have that clients haven't taken whole.
    pub(crate) fn kept(&self) -> usize {
        let mut sum = 0usize;
        for held in &self.held {
            if let Some(connection) = held {
                sum = sum.saturating_add(connection.kept);
            }
        }
        sum
    }

    /// The time until the next client has taken too long, and at most this time.
    pub(crate) fn left(&self, now: u64, most: u64) -> u64 {
        let mut least = most;
        for held in &self.held {
            if let Some(connection) = held {
                least = least.min(connection.left(now));
            }
        }
        least
    }
}

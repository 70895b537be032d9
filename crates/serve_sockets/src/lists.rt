//! Requests for lists: which one is called next, and which open list goes for one that waits.
ghost use Rattle.std.specs.Prelude.{◌≡◌, ◌<◌, ◌≤◌, IfNone, IfSome, None, Some, count_by, false, length, position, true};
ghost use Rattle.serve_sockets.specs.{Table.number_at, Lists.{IsFirst, is_open, wants_at, wants_in}};

use crate::connection::Connection;
use crate::slots::{held_at, number_at};

/// What is looked for among connections.
#[derive(Clone, Copy)]
pub(crate) enum Wanted {
    /// One whose request for a list is put off.
    PutOff,
    /// One whose list was called longer than a minute ago, at this served time.
    Slow { now: u64 },
}

// Whether the connection that is held is wanted.
fn wants_in<T>(wanted: Wanted, held: &Option<Connection<T>>) -> bool
    ensures { result ≡ wants_in wanted held.now }
{
    match (held, wanted) {
        (None, _) => false,
        (Some(connection), Wanted::PutOff) => connection.is_put_off(),
        (Some(connection), Wanted::Slow { now }) => connection.is_slow(now),
    }
}

// Whether a slot's connection is wanted.
fn wants_at<T>(wanted: Wanted, slots: &[Option<Connection<T>>], slot: usize) -> bool
    ensures { result ≡ wants_at wanted slots.now slot }
{
    match held_at(slots, slot) {
        Some(held) => wants_in(wanted, held),
        None => false,
    }
}

// Whether a slot's connection is wanted, and was accepted before that of another slot.
fn is_earlier<T>(wanted: Wanted, slots: &[Option<Connection<T>>], slot: usize, other: usize) -> bool
    ensures wants { result ≡ true → wants_at wanted slots.now slot ≡ true }
    ensures yes { result ≡ true → number_at slots.now slot ≤ number_at slots.now other }
    ensures no { result ≡ false → wants_at wanted slots.now slot ≡ true → number_at slots.now other ≤ number_at slots.now slot }
{
    wants_at(wanted, slots, slot) && number_at(slots, slot) < number_at(slots, other)
}

// The lowest slot whose connection is wanted.
fn lowest<T>(wanted: Wanted, slots: &[Option<Connection<T>>]) -> Option<usize>
    ensures { result ≡ position (wants_in wanted) slots.now }
{
    slots.iter().position(|held| wants_in(wanted, held))
}

// The slot of the one that was accepted first, from the lowest on.
fn first_from<T>(wanted: Wanted, slots: &[Option<Connection<T>>], lowest: usize) -> usize
    requires { position (wants_in wanted) slots.now ≡ Some lowest }
    ensures { IsFirst wanted slots.now result }
{
    let mut first = lowest;
    for slot in lowest..slots.len() {
        if is_earlier(wanted, slots, slot, first) {
            first = slot;
        }
    }
    first
}

/// The slot whose connection was accepted before the others of those that are wanted.
pub(crate) fn first_of<T>(wanted: Wanted, slots: &[Option<Connection<T>>]) -> Option<usize>
    ensures first { IfSome result (IsFirst wanted slots.now) }
    ensures none { IfNone result (position (wants_in wanted) slots.now ≡ None) }
{
    match lowest(wanted, slots) {
        Some(lowest) => Some(first_from(wanted, slots, lowest)),
        None => None,
    }
}

// Whether the list of the connection that is held is open.
fn is_open<T>(held: &Option<Connection<T>>) -> bool
    ensures { result ≡ is_open held.now }
{
    match held {
        Some(connection) => connection.is_called(),
        None => false,
    }
}

/// How many lists are open.
pub(crate) fn open_lists<T>(slots: &[Option<Connection<T>>]) -> usize
    ensures { result ≡ count_by is_open slots.now }
{
    let mut count = 0;
    for slot in 0..slots.len() {
        if is_open(&slots[slot]) {
            count += 1;
        }
    }
    count
}

//! What slots hold, and the numbers of their connections, by which one was accepted before another.
ghost use Rattle.std.specs.Prelude.{◌≡◌, Some, option_copied, slice_get};
ghost use Rattle.serve_sockets.specs.Table.{is_late_held, is_marked, number_at, number_in};

use crate::connection::Connection;

/// What a slot holds, if there is such a slot.
pub(crate) fn held_at<T>(
    slots: &[Option<Connection<T>>],
    slot: usize,
) -> Option<&Option<Connection<T>>>
    ensures { option_copied result ≡ slice_get slots.now slot }
{
    slots.get(slot)
}

/// Whether the seat of a slot is marked.
pub(crate) fn is_marked(marks: &[bool], slot: usize) -> bool
    ensures { result ≡ is_marked marks.now slot }
{
    marks.get(slot).copied().unwrap_or(false)
}

/// Whether a slot's connection was undecided, or its answer stood still, for two seconds of served time.
pub(crate) fn is_late_held<T>(held: Option<&Option<Connection<T>>>, now: u64) -> bool
    ensures { result ≡ is_late_held now (option_copied held.entry) }
{
    match held {
        Some(Some(connection)) => connection.is_late(now),
        _ => false,
    }
}

// The number of the connection that is held, and the last number of all if there is none.
fn number_in<T>(held: &Option<Connection<T>>) -> u64
    ensures { result ≡ number_in (Some held.now) }
{
    match held {
        Some(connection) => connection.number(),
        None => u64::MAX,
    }
}

/// The number of a slot's connection, and the last number of all if the slot is free.
pub(crate) fn number_at<T>(slots: &[Option<Connection<T>>], slot: usize) -> u64
    ensures { result ≡ number_at slots.now slot }
{
    match held_at(slots, slot) {
        Some(held) => number_in(held),
        None => u64::MAX,
    }
}

//! Which connection goes for another one where there is no room.
ghost use Rattle.std.specs.Prelude.{◌≡◌, ◌<◌, ◌≤◌, IfSome, false, length, true};
ghost use Rattle.serve_sockets.specs.Yielding.{Goes, IsAhead, IsTally, bucket_in, crowd_at, crowd_by};

use crate::bucket::BUCKETS;
use crate::connection::Connection;
use crate::slots::{held_at, number_at};

// The bucket of the connection that is held, if that is undecided.
fn bucket_in<T>(held: &Option<Connection<T>>) -> Option<usize>
    ensures bucket { result ≡ bucket_in held.now }
    ensures within { IfSome result (λ bucket. bucket < 1024) }
{
    match held {
        Some(connection) => connection.undecided_bucket(),
        None => None,
    }
}

// How many undecided connections each bucket has.
fn tally<T>(slots: &[Option<Connection<T>>]) -> [u16; BUCKETS]
    requires { length slots.now ≤ 1024 }
    ensures { IsTally result slots.now }
{
    let mut crowds = [0u16; BUCKETS];
    for slot in 0..slots.len() {
        if let Some(bucket) = bucket_in(&slots[slot]) {
            crowds[bucket] += 1;
        }
    }
    crowds
}

// How many undecided connections a slot's bucket has, if its own connection is undecided.
fn crowd_at<T>(slots: &[Option<Connection<T>>], crowds: &[u16; BUCKETS], slot: usize) -> u16
    requires { IsTally crowds.now slots.now }
    ensures { result ≡ crowd_at slots.now slot }
{
    match held_at(slots, slot) {
        Some(held) => bucket_in(held).map_or(0, |bucket| crowds[bucket]),
        None => 0,
    }
}

// Whether a slot's connection goes before that of another one.
fn is_ahead<T>(
    slots: &[Option<Connection<T>>],
    crowds: &[u16; BUCKETS],
    slot: usize,
    other: usize,
) -> bool
    requires { IsTally crowds.now slots.now }
    ensures yes { result ≡ true → IsAhead slots.now slot other }
    ensures no { result ≡ false → IsAhead slots.now other slot }
{
    let crowd = crowd_at(slots, crowds, slot);
    let rival = crowd_at(slots, crowds, other);
    if crowd == rival {
        number_at(slots, slot) < number_at(slots, other)
    } else {
        crowd > rival
    }
}

/// The slot whose connection goes.
pub(crate) fn yielding<T>(slots: &[Option<Connection<T>>]) -> usize
    requires some { 0 < length slots.now }
    requires few { length slots.now ≤ 1024 }
    ensures within { result < length slots.now }
    ensures goes { Goes slots.now result }
{
    let crowds = tally(slots);
    let mut first = 0;
    for slot in 1..slots.len() {
        if is_ahead(slots, &crowds, slot, first) {
            first = slot;
        }
    }
    first
}

//! Moves of machines from one status to another, read off two lists.
ghost use Rattle.std.specs.{Prelude.{◌≡◌, ◌≢◌, All, IfOk, IfSome, filter_map, option_map}, List.Sorted.IsNonDecreasingBy};
ghost use Rattle.hallview_state.specs.Moves.{Has, IsMove, move_of, with_id};

use crate::listed::Listed;
use hall_types::{Number, Status};
use std::alloc::{AllocError, Global};

/// A move of a machine, and when it was seen, in seconds since 1970.
#[derive(Clone, Copy)]
pub struct Move {
    pub at: u64,
    pub machine: Number,
    pub from: Status,
    pub to: Status,
}

// The status of the machine with this number.
fn status_in(machines: &[Listed], id: Number) -> Option<Status>
    ensures has { IfSome result (λ status. Has machines.now id status) }
    ensures found { IsNonDecreasingBy (λ one. one.machine.id) machines.now → result ≡ option_map (λ one. one.machine.status) (with_id machines.now id) }
{
    let place = machines.partition_point(|one| one.machine.id.get() < id.get());
    let one = machines.get(place)?;
    if one.machine.id == id {
        Some(one.machine.status)
    } else {
        None
    }
}

// The move of a machine, if it was in the list before and is in another status now.
fn move_of(before: &[Listed], one: &Listed, at: u64) -> Option<Move>
    ensures at { IfSome result (λ move. move.at ≡ at) }
    ensures machine { IfSome result (λ move. move.machine ≡ one.now.machine.id) }
    ensures from { IfSome result (λ move. Has before.now move.machine move.from) }
    ensures to { IfSome result (λ move. move.to ≡ one.now.machine.status) }
    ensures moved { IfSome result (λ move. move.from ≢ move.to) }
    ensures exact { IsNonDecreasingBy (λ one. one.machine.id) before.now → result ≡ move_of before.now at one.now }
{
    let from = status_in(before, one.machine.id)?;
    let to = one.machine.status;
    if from.number() == to.number() {
        return None;
    }
    Some(Move {
        at,
        machine: one.machine.id,
        from,
        to,
    })
}

/// The moves between two lists of a hall, in the order of the second one. Where the numbers of the first one rise, none is missing.
pub fn moves_between(
    alloc: Global,
    before: &[Listed],
    after: &[Listed],
    at: u64,
) -> Result<Vec<Move>, AllocError>
    ensures each { IfOk result (λ moves. All (IsMove before.now after.now at) moves.items) }
    ensures all { IsNonDecreasingBy (λ one. one.machine.id) before.now → IfOk result (λ moves. moves.items ≡ filter_map (move_of before.now at) after.now) }
{
    let mut moves = Vec::new(alloc);
    for one in after {
        if let Some(step) = move_of(before, one, at) {
            moves.push(step)?;
        }
    }
    Ok(moves)
}

//! How many moves were seen on each way from one status to another.
ghost use Rattle.std.specs.Prelude.{◌≡◌, ◌+◌, ◌-◌, ◌^◌, ◌<◌, ℕ, List, Some, fold, min, slice_get};
ghost use Rattle.hallview_state.specs.{Ways.{count_on, counted, moves_on, way_number}, declared.{moves.Move.{Move}, ways.Ways.{Ways}}};

use crate::history::STATUSES;
use crate::moves::Move;
use hall_types::Status;

/// The number of ways from one status to another.
pub(crate) const WAYS: usize = STATUSES * STATUSES;

/// The number of a way, below `WAYS`.
pub(crate) fn way_number(from: Status, to: Status) -> usize
    ensures { result ≡ way_number from to }
{
    from.number() as usize * STATUSES + to.number() as usize
}

/// A count for each way. No count falls.
#[derive(Clone, Copy)]
pub struct Ways {
    counts: [u64; WAYS],
}

impl Ways {
    /// Before the first move.
    pub fn new() -> Ways {
        Ways { counts: [0; WAYS] }
    }

    fn add(&mut self, one: &Move)
        ensures { self.new ≡ counted self.old one.now }
    {
        let way = way_number(one.from, one.to);
        if let Some(count) = self.counts.get(way) {
            self.counts[way] = count.saturating_add(1);
        }
    }

    /// Counts moves.
    pub(crate) fn add_all(&mut self, moves: &[Move])
        ensures { self.new ≡ fold counted self.old moves.now }
    {
        for one in moves {
            self.add(one);
        }
    }

    /// How many moves were seen on a way.
    pub fn count(&self, from: Status, to: Status) -> u64
        ensures { result ≡ count_on self.now (way_number from to) }
    {
        match self.counts.get(way_number(from, to)) {
            Some(count) => *count,
            None => 0,
        }
    }
}

/// Each move is counted on its way, and on no other one: a count is what it was, and how many of the moves are on its way.
#[tactic(auto, using(crate::specs::WayLaws::moves_are_counted))]
pub fn moves_are_counted()
    ensures { (ways : Ways) (moves : List Move) (way count : ℕ) → slice_get ways.counts way ≡ Some count → count < 2 ^ 64
        → count_on (fold counted ways moves) way ≡ min (count + moves_on way moves) (2 ^ 64 - 1) }
{}

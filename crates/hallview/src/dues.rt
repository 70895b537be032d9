//! When each desk is asked next. Moments are milliseconds.
use crate::schedule::{head_start, left_to_due, nearest, next_due};
use std::alloc::{AllocError, Global};

// In how many milliseconds all desks are asked for the first time.
const FIRST: u64 = 5_000;

// The moment of what isn't due.
const NEVER: u64 = u64::MAX;

/// When each desk is asked next: those that are up, and apart from them those that are down, which may take long to answer.
#[derive(Drop)]
pub(crate) struct Dues {
    up: Vec<u64>,
    down: Vec<u64>,
    // How long it is from one time that a desk is asked to the next, if it answers soon.
    wished: u64,
}

fn set(dues: &mut Vec<u64>, place: usize, moment: u64) {
    if let Some(due) = dues.get_mut(place) {
        *due = moment;
    }
}

impl Dues {
    /// Those of so many desks that weren't asked yet, each of which is asked so often: the first times come soon, spread.
    pub(crate) fn new(alloc: Global, wished: u64, count: usize) -> Result<Dues, AllocError> {
        let mut up = Vec::with_capacity(alloc, count)?;
        let mut down = Vec::with_capacity(alloc, count)?;
        let first = wished.min(FIRST);
        for place in 0..count {
            up.push(head_start(first, place as u64, count as u64))?;
            down.push(NEVER)?;
        }
        Ok(Dues { up, down, wished })
    }

    /// Has a desk asked at a moment.
    pub(crate) fn set(&mut self, place: usize, is_down: bool, moment: u64) {
        let (up, down) = if is_down {
            (NEVER, moment)
        } else {
            (moment, NEVER)
        };
        set(&mut self.up, place, up);
        set(&mut self.down, place, down);
    }

    /// Has a desk asked this long after the moment at which it was asked last. If that is as long as it is wished, it keeps its distance
    /// from the others.
    pub(crate) fn set_again(&mut self, place: usize, is_down: bool, last: u64, pause: u64) {
        let moment = last.saturating_add(pause);
        if pause > self.wished {
            return self.set(place, is_down, moment);
        }
        let first = head_start(pause, place as u64, self.up.len() as u64);
        self.set(place, is_down, nearest(moment, first, pause));
    }

    /// Has a desk not asked, which is being asked.
    pub(crate) fn hold(&mut self, place: usize) {
        self.set(place, false, NEVER);
    }

    /// The first desk whose time has come: one that is up, or else one that is down, if that may be.
    pub(crate) fn next(&self, now: u64, may_be_down: bool) -> Option<usize> {
        match next_due(self.up.as_slice(), now) {
            Some(place) => Some(place),
            None if may_be_down => next_due(self.down.as_slice(), now),
            None => None,
        }
    }

    /// The time until a desk's time has come, and at most this time.
    pub(crate) fn left(&self, now: u64, may_be_down: bool, most: u64) -> u64 {
        let most = left_to_due(self.up.as_slice(), now, most);
        if may_be_down {
            left_to_due(self.down.as_slice(), now, most)
        } else {
            most
        }
    }
}

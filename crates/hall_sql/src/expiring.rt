//! Which machine expires next.
ghost use Rattle.sql_schema.specs.Words.{AllByRecursion, state, HasCleanDisk, next_expired};
ghost use Rattle.std.specs.Prelude.{◌≡◌, ◌≤◌};
ghost use Rattle.hall_store.specs.Store.{ReadsBy, over_none};
ghost use Rattle.hall_sql.specs.{Expiring.PutsNoEarlier, Store.{HasHall, StopLeaves}};

use crate::store::SqlStore;
use hall_store::Unavailable;
use hall_types::{MAX_MOMENT, Machine, Moment, RowWrite};
use sql_items::next_expired;
use sqlite::Alter;

// The earlier of a moment and the deadline that a machine is put with.
fn earliest_with(earliest: u64, write: &RowWrite) -> u64
    ensures lower { result ≤ earliest }
    ensures put { PutsNoEarlier result write.now }
{
    match write {
        RowWrite::PutMachine { machine, .. } => machine
            .deadline
            .map_or(earliest, |deadline| earliest.min(deadline)),
        _ => earliest,
    }
}

/// A moment that is no later than this one nor than a deadline of the machines that are put.
pub(crate) fn earliest_after(earliest: u64, writes: &[RowWrite]) -> u64
    ensures lower { result ≤ earliest }
    ensures put { AllByRecursion (PutsNoEarlier result) writes.now }
{
    let mut known = earliest;
    'writes: for write in writes {
        known = earliest_with(known, write);
    }
    known
}

// The last moment that there is.
fn last_moment() -> Moment
    ensures { result ≡ MAX_MOMENT }
{
    match Moment::new(MAX_MOMENT) {
        Ok(last) => last,
        Err(_) => unreachable!(),
    }
}

impl<S: Alter> SqlStore<S> {
    /// The next machine to expire. The tables are asked only if a machine may have expired, and the least deadline that is found is
    /// known from then on, or that none ever expires.
    pub(crate) fn next_due(&mut self, moment: Moment) -> Result<Option<Machine>, Unavailable>
        ensures { ReadsBy (λ s. HasCleanDisk (state S.Store s.conn)) (HasHall S.Store) (StopLeaves S.Store) over_none self.old self.new result (λ h answer. answer ≡ next_expired h moment) }
    {
        if self.stopped {
            return Err(Unavailable);
        }
        if moment.get() < self.earliest {
            return Ok(None);
        }
        let answer = next_expired(&mut self.conn, last_moment());
        match self.pass(answer) {
            Ok(first) => {
                self.earliest = first
                    .as_ref()
                    .map_or(MAX_MOMENT + 1, |machine| machine.deadline.unwrap_or(0));
                Ok(first.and_then(|machine| machine.if_due(moment)))
            }
            Err(unavailable) => Err(unavailable),
        }
    }
}

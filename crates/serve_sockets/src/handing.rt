//! Handing requests to the desk together.
ghost use Rattle.std.specs.Prelude.{◌<◌, ◌≤◌, IfErr, IfOk, length, take};
ghost use Rattle.hall_desk.specs.{Desk.{site_of, store_of}, Grouping.first_of, GroupingLaws.missed_answers};
ghost use Rattle.serve_sockets.specs.{Gathering.{AreRequests, IsHandedAs}, Turn.KeepsDesk};

use hall_desk::{Answered, Arrival, Desk};
use hall_store::{GroupStore, Unavailable};
use std::alloc::Global;

/// A desk, and the memory that its answers take.
#[derive(Drop)]
pub(crate) struct Server<S> {
    pub(crate) alloc: Global,
    pub(crate) desk: Desk<S>,
}

impl<S: GroupStore> Server<S> {
    /// Hands over requests that came together, by one commit: the answers to the first of them; or, as an error, how many of them came to
    /// nothing: all, or the first one, which the store can't answer.
    pub(crate) fn hand_group(&mut self, arrivals: &[Arrival]) -> Result<Answered, usize>
        requires some { 0 < length arrivals.now }
        requires requests { AreRequests arrivals.now }
        ensures kept { KeepsDesk S.HallStore self.old.desk self.new.desk }
        ensures few { IfOk result (λ answered. length answered.answers.items ≤ length arrivals.now) }
        ensures some { IfOk result (λ answered. 0 < length answered.answers.items) }
        ensures count { IfErr result (λ count. count ≤ length arrivals.now) }
        ensures answered { S.HallStore.is_clean (store_of self.new.desk) → IfOk result (λ answered.
            IsHandedAs S.HallStore (store_of self.old.desk) (store_of self.new.desk) (site_of self.old.desk) (first_of arrivals.now answered.answers.items) answered.answers.items) }
        ensures refused { S.HallStore.is_clean (store_of self.new.desk) → IfErr result (λ count.
            IsHandedAs S.HallStore (store_of self.old.desk) (store_of self.new.desk) (site_of self.old.desk) (take count arrivals.now) (missed_answers (take count arrivals.now))) }
    {
        match self.desk.answer_group(self.alloc, arrivals) {
            Ok(answered) if answered.answers.is_empty() => Err(1),
            Ok(answered) => Ok(answered),
            Err(Unavailable) => Err(arrivals.len()),
        }
    }
}

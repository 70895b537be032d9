//! The promise of a store that can hold changes back.
ghost use Rattle.hall_store.specs.Grouped.{IsBegun, IsCommitted, IsRolledBack, WhereClean};

use crate::store::{HallStore, Unavailable};

/// A store that can hold a group of changes back: `apply` adds to an open group, later reads see what it added, and a stop leaves none
/// of it. `commit` writes all changes of the group at once, or none.
pub trait GroupStore: HallStore {
    /// Opens a group without a change. It's refused where one is open.
    fn begin(&mut self) -> Result<(), Unavailable>
        ensures { WhereClean Self.is_clean self.old self.new (IsBegun Self.holds Self.leaves Self.over self.old self.new result) };

    /// Writes all changes of the open group, or none of them, and closes it.
    fn commit(&mut self) -> Result<(), Unavailable>
        ensures { WhereClean Self.is_clean self.old self.new (IsCommitted Self.holds Self.leaves Self.over self.old self.new result) };

    /// Gives all changes of the open group up, and closes it.
    fn roll_back(&mut self)
        ensures { WhereClean Self.is_clean self.old self.new (IsRolledBack Self.holds Self.leaves Self.over self.old self.new) };
}

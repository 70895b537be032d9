//! A group: a store, and the changes that it is to get.
ghost use Rattle.std.specs.Prelude.{◌≡◌, false};
ghost use Rattle.hall_types.specs.Hall.{Hall};
ghost use Rattle.store_group.specs.Group.{LeadsTo, is_open, store_of};

use hall_store::HallStore;
use hall_types::RowWrite;
use std::alloc::Global;

/// A store over another one. While no group is open, it has the hall of the store within, and passes each call on. Changes of an open
/// group are held in memory: it has the hall that they lead to, and the store within the hall before them.
#[derive(Drop)]
pub struct Group<S> {
    pub(crate) alloc: Global,
    pub(crate) store: S,
    pub(crate) writes: Vec<RowWrite>,
    pub(crate) is_open: bool,
}

impl<S: HallStore> Group<S> {
    /// Over a store, with no open group. It has the hall that the store has, and a stop leaves what it leaves of that one.
    pub fn new(alloc: Global, store: S) -> Group<S>
        ensures store { store_of result ≡ store }
        ensures held { (h : Hall) → S.HallStore.holds store h → LeadsTo S.HallStore result h }
        ensures opened { is_open result ≡ false }
    {
        Group {
            alloc,
            store,
            writes: Vec::new(alloc),
            is_open: false,
        }
    }

    /// The store within. The changes of an open group are given up.
    pub fn into_inner(self) -> S
        ensures { result ≡ store_of self }
    {
        self.store
    }
}

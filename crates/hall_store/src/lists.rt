//! The lists of a hall that were read last.
ghost use Rattle.std.specs.Prelude.{◌≡◌, IfSome};
ghost use Rattle.hall_types.specs.{Hall.Hall, Rows.listed};
ghost use Rattle.hall_store.specs.Lists.{AreListsOf};

use hall_types::{Interface, Machine};
use std::alloc::Global;

/// All machines and all interfaces, where they were read since the last change.
#[derive(Drop)]
pub(crate) struct Lists {
    machines: Option<Vec<Machine>>,
    interfaces: Option<Vec<Interface>>,
}

impl Lists {
    /// No list is known.
    pub(crate) fn new() -> Lists
        ensures { (h : Hall) → AreListsOf h result }
    {
        Lists {
            machines: None,
            interfaces: None,
        }
    }

    /// A copy of all machines, if they are known and there is memory for it.
    pub(crate) fn machines(&self, alloc: Global) -> Option<Vec<Machine>>
        ensures { (h : Hall) → AreListsOf h self.now → IfSome result (λ machines. machines.items ≡ listed h.machines) }
    {
        let machines = self.machines.as_ref()?;
        Vec::from_slice(alloc, machines.as_slice()).ok()
    }

    /// A copy of all interfaces, likewise.
    pub(crate) fn interfaces(&self, alloc: Global) -> Option<Vec<Interface>>
        ensures { (h : Hall) → AreListsOf h self.now → IfSome result (λ interfaces. interfaces.items ≡ listed h.interfaces) }
    {
        let interfaces = self.interfaces.as_ref()?;
        Vec::from_slice(alloc, interfaces.as_slice()).ok()
    }

    /// Keeps a copy of all machines, if there is memory for it.
    pub(crate) fn keep_machines(&mut self, alloc: Global, machines: &[Machine])
        ensures { (h : Hall) → machines.now ≡ listed h.machines → AreListsOf h self.old → AreListsOf h self.new }
    {
        self.machines = Vec::from_slice(alloc, machines).ok();
    }

    /// Keeps a copy of all interfaces, likewise.
    pub(crate) fn keep_interfaces(&mut self, alloc: Global, interfaces: &[Interface])
        ensures { (h : Hall) → interfaces.now ≡ listed h.interfaces → AreListsOf h self.old → AreListsOf h self.new }
    {
        self.interfaces = Vec::from_slice(alloc, interfaces).ok();
    }

    /// Forgets both.
    pub(crate) fn forget(&mut self)
        ensures { (h : Hall) → AreListsOf h self.new }
    {
        *self = Lists::new();
    }
}

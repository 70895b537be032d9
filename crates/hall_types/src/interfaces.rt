//! Interfaces by machine.
ghost use Rattle.std.specs.{Prelude.{◌≡◌, ◌==◌, filter, OnOk, ℕ}, List.Sorted.IsNonDecreasingBy};

use crate::machine::Interface;
use crate::number::Number;
use std::alloc::AllocError;

/// Sorts interfaces by machine; those of one machine keep their order.
pub fn sort_by_machine(interfaces: &mut Vec<Interface>) -> Result<(), AllocError>
    ensures sorted { OnOk result (IsNonDecreasingBy (λ i. i.machine) interfaces.new.items) }
    ensures same { OnOk result ((id : ℕ) → filter (λ i. i.machine == id) interfaces.new.items ≡ filter (λ i. i.machine == id) interfaces.old.items) }
{
    interfaces.sort_by_key(|interface| interface.machine.get())
}

/// The interfaces of a machine among those that are sorted by machine.
pub fn own_interfaces(interfaces: &[Interface], id: Number) -> &[Interface]
    requires { IsNonDecreasingBy (λ i. i.machine) interfaces.now }
    ensures { result.now ≡ filter (λ i. i.machine == id) interfaces.now }
{
    let first = interfaces.partition_point(|interface| interface.machine.get() < id.get());
    let (_, rest) = interfaces.split_at(first);
    let count = rest.partition_point(|interface| interface.machine.get() <= id.get());
    let (own, _) = rest.split_at(count);
    own
}

//! The list of all machines.
ghost use Rattle.std.specs.{Prelude.{◌≡◌, ◌==◌, filter, map, IfOk}, List.Sorted.IsNonDecreasingBy};
ghost use Rattle.hall_types.specs.Rows.{listed as rows_of};
ghost use Rattle.hall_events.specs.Reply.{listed};
ghost use Rattle.hall_desk.specs.{Prelude.{second, listing, machine_list, reply_of, with_machine, listed_of, says, Looks}, Plan.Plans};

use crate::plans::Planned;
use crate::requests::said;
use hall_events::{MachineList, Reply};
use hall_store::HallStore;
use hall_types::{Interface, Machine, own_interfaces, sort_by_machine};
use std::alloc::{AllocError, Global};

// The answer with machines, each with its interfaces, which are sorted by machine.
fn sorted_reply(
    alloc: Global,
    machines: &[Machine],
    interfaces: &[Interface],
) -> Result<Reply, AllocError>
    requires { IsNonDecreasingBy (λ i. i.machine) interfaces.now }
    ensures { IfOk result (λ reply. reply ≡ reply_of second
        (machine_list (map (λ m. listed m (filter (λ i. i.machine == m.id) interfaces.now)) machines.now))) }
{
    let mut list = MachineList::new(alloc, machines.len())?;
    for machine in machines {
        list.push(alloc, machine, own_interfaces(interfaces, machine.id))?;
    }
    list.finish()
}

// The answer with machines, each with its interfaces.
fn machine_list_reply(
    alloc: Global,
    machines: &[Machine],
    interfaces: &mut Vec<Interface>,
) -> Result<Reply, AllocError>
    ensures { IfOk result (λ reply. reply ≡ reply_of second
        (machine_list (map (λ m. listed m (filter (λ i. i.machine == m.id) interfaces.old.items)) machines.now))) }
{
    sort_by_machine(interfaces)?;
    sorted_reply(alloc, machines, interfaces)
}

/// The answer with all machines, by number, each with its interfaces, by address.
pub(crate) fn list_machines<S: HallStore>(alloc: Global, store: &mut S) -> Planned
    ensures { Looks S.HallStore store.old store.new result
        (λ h planned. Plans (says (machine_list (map (listed_of h) (rows_of h.machines)))) planned) }
{
    let machines = store.machines(alloc)?;
    let mut interfaces = store.interfaces(alloc)?;
    said(alloc, machine_list_reply(alloc, &machines, &mut interfaces))
}

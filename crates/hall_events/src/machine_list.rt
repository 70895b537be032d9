//! The list of machines, which is written machine by machine.
ghost use Rattle.std.specs.Prelude.{◌≡◌, List, IfOk, OnOk};
ghost use Rattle.hall_types.specs.Hall.{second};
ghost use Rattle.hall_events.specs.Reply.{ListedMachine, listed, listing, machine_list, no_machine, reply_of, with_machine};

use crate::list_text::comma_if;
use crate::machine_text::push_machine;
use crate::reply::{OK, Reply, json_reply};
use hall_types::{Interface, Machine};
use std::alloc::{AllocError, Global};
use std::marker::Model;

/// The text of a list of machines so far. Contracts see its octets, and whether a machine stands in it.
#[derive(Drop)]
pub struct MachineList {
    text: String,
    any: bool,
}

impl Model for MachineList {
    ghost use Rattle.std.specs.Prelude.{string_bytes};
    ghost use Rattle.hall_events.specs.Listing.{Listing};

    ghost Value = { Listing };

    ghost view = { λ list. record { text = string_bytes list.text; any = list.any } };
}

// The room for one machine, octets: most take less.
const MACHINE_ROOM: usize = 288;

// The room for what is around the machines.
const LIST_ROOM: usize = 16;

impl MachineList {
    /// The list before its first machine, with room for so many.
    pub fn new(alloc: Global, machines: usize) -> Result<MachineList, AllocError>
        ensures { IfOk result (λ list. list ≡ no_machine) }
    {
        let room = machines
            .saturating_mul(MACHINE_ROOM)
            .saturating_add(LIST_ROOM);
        let mut text = String::with_capacity(alloc, room)?;
        text.push_str("{\"machines\":[")?;
        Ok(MachineList { text, any: false })
    }

    /// Writes a machine with its interfaces after those that stand in the list. After an error the list is of
    /// no use.
    #[tactic(auto, unfolding(crate::specs::Reply::with_machine))]
    pub fn push(
        &mut self,
        alloc: Global,
        machine: &Machine,
        interfaces: &[Interface],
    ) -> Result<(), AllocError>
        ensures { OnOk result (self.new ≡ with_machine self.old (listed machine.now interfaces.now)) }
    {
        self.text.push_str(comma_if(self.any))?;
        push_machine(alloc, &mut self.text, machine, interfaces)?;
        self.any = true;
        Ok(())
    }

    /// The answer with the machines that were written.
    pub fn finish(self) -> Result<Reply, AllocError>
        ensures { (machines : List ListedMachine) → self ≡ listing machines
            → IfOk result (λ reply. reply ≡ reply_of second (machine_list machines)) }
    {
        let MachineList { mut text, .. } = self;
        text.push_str("]}")?;
        Ok(json_reply(OK, text))
    }
}

//! What a desk did with one arrival, for a log.
ghost use Rattle.std.specs.Prelude.{◌≡◌, Some, option_map};
ghost use Rattle.hall_desk.specs.{Account.{about, nothing_noted, sent_by, with_found}, Moved.moved_by};

use crate::moved::{Moved, Seen, moved_by};
use boot_desk::{BootView, Decision, OrderView, ReportView};
use desk_command::CommandView;
use dhcp_frame::FrameFault;
use hall_http::{Asked, HttpFault};
use hall_types::{Change, Machine, Name, Operator};
use pxe_vendor::{Client, NotServed};

/// What came, as the desk read it.
#[derive(Drop)]
pub enum Came {
    /// A datagram that is no DHCP message of a client, for its first fault (RFC 2131).
    Malformed(FrameFault),
    /// A message that isn't answered, for the first cause (PXE 2.1). `Memory` may come in the place of each.
    NotServed(NotServed),
    /// The message of this client.
    Client(Client),
    /// A request that makes no event (RFC 9112), for the first fault. `Memory` may come in the place of each.
    Refused(HttpFault),
    /// The event that a request makes.
    Asked(Asked),
    Quiet,
}

/// What was found and changed in the hall for one arrival. What wasn't come to is none.
#[derive(Clone, Copy)]
pub struct Notes {
    /// How a client's frame is decided.
    pub decision: Option<Decision>,
    /// Whether the client would have been enlisted by a desk that enlists.
    pub unlisted: bool,
    /// The operator whose token came.
    pub operator: Option<Name>,
    /// The machine that the arrival is about, as it was before.
    pub machine: Option<Seen>,
    /// The machine whose status was changed, if one's was.
    pub moved: Option<Moved>,
}

/// What came, and what was found and changed for it.
#[derive(Drop)]
pub struct Account {
    pub came: Came,
    pub notes: Notes,
}

impl Account {
    /// The account of what was answered without the hall.
    pub(crate) fn of(came: Came) -> Account
        ensures { result ≡ record { came = came; notes = nothing_noted } }
    {
        Account {
            came,
            notes: Notes::NONE,
        }
    }
}

/// The operator whose token came, and the machine that an arrival is about, as far as they were found.
#[derive(Clone, Copy)]
pub(crate) struct Found {
    pub(crate) operator: Option<Name>,
    pub(crate) machine: Option<Seen>,
}

impl Found {
    pub(crate) const NOTHING: Found = Found {
        operator: None,
        machine: None,
    };

    pub(crate) fn note_operator(&mut self, operator: &Option<Operator>)
        ensures { self.new ≡ sent_by operator.now self.old }
    {
        if let Some(operator) = operator {
            self.operator = Some(operator.name);
        }
    }

    fn note_machine(&mut self, machine: &Machine)
        ensures { self.new ≡ about (Some machine.now) self.old }
    {
        self.machine = Some(Seen {
            machine: machine.id,
            status: machine.status,
        });
    }

    pub(crate) fn note_boot_view(&mut self, view: &Option<BootView>)
        ensures { self.new ≡ about (option_map (λ its. its.machine) view.now) self.old }
    {
        if let Some(view) = view {
            self.note_machine(&view.machine);
        }
    }

    pub(crate) fn note_report_view(&mut self, view: &Option<ReportView>)
        ensures { self.new ≡ about (option_map (λ its. its.at.machine) view.now) self.old }
    {
        if let Some(view) = view {
            self.note_machine(&view.at.machine);
        }
    }

    pub(crate) fn note_order_view(&mut self, view: &Option<OrderView>)
        ensures { self.new ≡ about (option_map (λ its. its.at.machine) view.now) self.old }
    {
        if let Some(view) = view {
            self.note_machine(&view.at.machine);
        }
    }

    pub(crate) fn note_command_view(&mut self, view: &CommandView)
        ensures { self.new ≡ about view.now.machine self.old }
    {
        if let Some(machine) = &view.machine {
            self.note_machine(machine);
        }
    }
}

impl Notes {
    /// Nothing was found or changed.
    pub const NONE: Notes = Notes {
        decision: None,
        unlisted: false,
        operator: None,
        machine: None,
        moved: None,
    };

    /// What was found, whatever came of it.
    pub(crate) fn note_found(&mut self, found: Found)
        ensures { self.new ≡ with_found found self.old }
    {
        self.operator = found.operator;
        self.machine = found.machine;
    }

    pub(crate) fn note_change(&mut self, change: &Change)
        ensures { self.new ≡ record self.old { moved = moved_by self.old.machine change.now } }
    {
        self.moved = moved_by(&self.machine, change);
    }
}

//! What is known of statuses: their kinds, how long they may last, and which orders they wait for.
ghost use Rattle.std.specs.Prelude.{◌≡◌, Some};
ghost use Rattle.hall_types.specs.declared.{kinds.OrderKind.OrderKind, machine.Machine.Machine};
ghost use Rattle.life_cycle.specs.{Entering.limit_of, Laws.IsRemembered, Table.step_of, declared.{signal.Signal.Signal, step.Step.Step}};
ghost use Rattle.hallview_state.specs.Orders.{order_kind};

use hall_types::{Machine, OrderKind, Status};

/// A kind of statuses.
#[derive(Clone, Copy, PartialEq, Eq)]
pub enum StatusKind {
    Trouble,
    Work,
    Use,
    Ready,
    New,
}

impl StatusKind {
    /// All of them, in the order in which they are stacked in a plot.
    pub const ALL: [StatusKind; 5] = [
        StatusKind::Trouble,
        StatusKind::Work,
        StatusKind::Use,
        StatusKind::Ready,
        StatusKind::New,
    ];

    /// The class in pages.
    pub fn class(self) -> &'static str {
        match self {
            StatusKind::Trouble => "trouble",
            StatusKind::Work => "work",
            StatusKind::Use => "use",
            StatusKind::Ready => "ready",
            StatusKind::New => "new",
        }
    }

    /// What pages call it.
    pub fn title(self) -> &'static str {
        match self {
            StatusKind::Trouble => "Failed or Broken",
            StatusKind::Work => "At work",
            StatusKind::Use => "In use",
            StatusKind::Ready => "Ready",
            StatusKind::New => "New",
        }
    }

    /// The kind of a status.
    pub fn of(status: Status) -> StatusKind {
        match status {
            _ if status.is_failure() => StatusKind::Trouble,
            _ if limit_of(status).is_some() => StatusKind::Work,
            Status::Ready => StatusKind::Ready,
            Status::New => StatusKind::New,
            _ => StatusKind::Use,
        }
    }
}

/// How long a machine may be in a status, in seconds, if there is a limit.
#[tactic(auto, unfolding(life_cycle::specs::Entering::limit_of))]
pub fn limit_of(status: Status) -> Option<u64>
    ensures { result ≡ limit_of status }
{
    match status {
        Status::Releasing | Status::ExitingRescue => Some(600),
        Status::EnteringRescue => Some(1200),
        Status::Commissioning => Some(1800),
        Status::Deploying => Some(2400),
        Status::Testing => Some(3600),
        Status::DiskErasing => Some(7200),
        _ => None,
    }
}

/// The kind of the order that a machine waits for in a status, if it waits for one: it follows from the status.
#[tactic(auto, unfolding(crate::specs::Orders::order_kind))]
pub fn order_kind(status: Status) -> OrderKind
    ensures { result ≡ order_kind status }
{
    match status {
        Status::New
        | Status::FailedTesting
        | Status::Allocated
        | Status::Releasing
        | Status::FailedDiskErasing => OrderKind::Off,
        _ => OrderKind::Cycle,
    }
}

/// Each step of the life cycle that queues an order queues one of the kind that follows from the status that the step leads to.
#[tactic(auto, using(crate::specs::OrderLaws::orders_follow_status))]
pub fn orders_follow_status()
    ensures { (m : Machine) (signal : Signal) (step : Step) (kind : OrderKind) → IsRemembered m.back
        → step_of m signal ≡ Some step → step.order ≡ Some kind → kind ≡ order_kind step.status }
{}

/// Whether a machine's deadline has passed.
pub fn is_passed(machine: &Machine, now: u64) -> bool {
    match machine.deadline {
        Some(deadline) => deadline <= now,
        None => false,
    }
}

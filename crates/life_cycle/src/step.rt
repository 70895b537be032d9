//! Steps from one status to the next.
#![tactic(auto, unfolding(crate::specs::Table::step_of, hall_types::specs::Status::status_number))]

ghost use Rattle.std.specs.Prelude.{◌≡◌};
ghost use Rattle.hall_types.specs.declared.kinds.Progress.TheVariants as progress;
ghost use Rattle.hall_types.specs.declared.kinds.Outcome.TheVariants as outcome;
ghost use Rattle.life_cycle.specs.{Table.{breakable, commissionable, is_among, releasable, step_of}, declared.signal.Signal.TheVariants.{Answer, By, Expired, FourthBoot, Report}};
ghost use Rattle.life_cycle.specs.declared.action.Action.TheVariants as act;
ghost use Rattle.hall_types.specs.declared.act.Act.TheVariants as does;

use crate::action::Action;
use crate::signal::Signal;
use hall_types::{Act, Machine, OrderKind, Outcome, Progress, Status};

/// The status to enter, and the kind of the order that is queued with it.
#[derive(Clone, Copy)]
pub struct Step {
    pub status: Status,
    pub order: Option<OrderKind>,
}

const CYCLE: Option<OrderKind> = Some(OrderKind::Cycle);

const OFF: Option<OrderKind> = Some(OrderKind::Off);

/// The step that a signal leads a machine to, `None` where the table has no row for the signal in the
/// machine's status.
pub fn next(machine: &Machine, signal: Signal) -> Option<Step>
    ensures { result ≡ step_of machine.now signal }
{
    match signal {
        Signal::By(action) => acted(machine, action),
        Signal::Report(Progress::Started) => started(machine),
        Signal::Report(Progress::Done) => done(machine),
        Signal::Report(Progress::Failed) | Signal::FourthBoot => boot_failed(machine),
        Signal::Answer(Outcome::Done) => order_done(machine),
        Signal::Answer(Outcome::Failed) | Signal::Expired => order_failed(machine),
    }
}

/// The step after an operator's action.
fn acted(machine: &Machine, action: Action) -> Option<Step>
    ensures { result ≡ step_of machine.now (By action) }
{
    let (status, order) = match (action, machine.status) {
        (Action::Commission, status) if is_commissionable(status) => (Status::Commissioning, CYCLE),
        (Action::Act(Act::Test), Status::Ready | Status::FailedTesting) => (Status::Testing, CYCLE),
        (Action::Act(Act::Override), Status::FailedTesting) => (Status::Ready, None),
        (Action::Act(Act::Allocate), Status::Ready) => (Status::Allocated, None),
        (Action::Deploy, Status::Allocated | Status::FailedDeployment) => (
            Status::Deploying,
            CYCLE,
        ),
        (Action::Release, status) if is_releasable(status) => (Status::Releasing, OFF),
        (Action::ReleaseErasing, status) if is_releasable(status) => (Status::DiskErasing, CYCLE),
        (Action::Act(Act::Abort), _) => return aborted(machine),
        (
            Action::Act(Act::Rescue),
            Status::Deployed | Status::Broken | Status::FailedToEnterRescue,
        ) => (Status::EnteringRescue, CYCLE),
        (
            Action::Act(Act::ExitRescue),
            Status::Rescue | Status::FailedToEnterRescue | Status::FailedToExitRescue,
        ) => (Status::ExitingRescue, CYCLE),
        (Action::Act(Act::Break), status) if is_breakable(status) => (Status::Broken, None),
        (Action::Act(Act::Fix), Status::Broken) => (Status::Ready, None),
        _ => return None,
    };
    Some(Step { status, order })
}

/// Whether a machine in this status can be commissioned.
fn is_commissionable(status: Status) -> bool
    ensures { result ≡ is_among commissionable status }
{
    matches!(
        status,
        Status::New
            | Status::Ready
            | Status::FailedCommissioning
            | Status::FailedTesting
            | Status::Broken
    )
}

/// Whether a machine in this status can be released.
fn is_releasable(status: Status) -> bool
    ensures { result ≡ is_among releasable status }
{
    matches!(
        status,
        Status::Allocated
            | Status::Deployed
            | Status::FailedDeployment
            | Status::FailedReleasing
            | Status::FailedDiskErasing
    )
}

/// Whether a machine in this status can be marked broken.
fn is_breakable(status: Status) -> bool
    ensures { result ≡ is_among breakable status }
{
    matches!(
        status,
        Status::Ready
            | Status::Allocated
            | Status::FailedTesting
            | Status::FailedDeployment
            | Status::FailedReleasing
            | Status::FailedDiskErasing
    )
}

/// The step after an abort.
fn aborted(machine: &Machine) -> Option<Step>
    ensures { result ≡ step_of machine.now (By (act.Act does.Abort)) }
{
    let status = match machine.status {
        Status::Commissioning => Status::New,
        Status::Testing => Status::FailedTesting,
        Status::Deploying => Status::Allocated,
        Status::DiskErasing => Status::FailedDiskErasing,
        _ => return None,
    };
    Some(Step { status, order: OFF })
}

/// The step after the current boot reports that it started.
fn started(machine: &Machine) -> Option<Step>
    ensures { result ≡ step_of machine.now (Report progress.Started) }
{
    match machine.status {
        Status::EnteringRescue => Some(Step {
            status: Status::Rescue,
            order: None,
        }),
        _ => None,
    }
}

/// The step after the current boot reports that it is done.
fn done(machine: &Machine) -> Option<Step>
    ensures { result ≡ step_of machine.now (Report progress.Done) }
{
    let (status, order) = match machine.status {
        Status::Commissioning if machine.tests => (Status::Testing, CYCLE),
        Status::Commissioning | Status::Testing => (Status::Ready, None),
        Status::Deploying => (Status::Deployed, None),
        Status::DiskErasing => (Status::Releasing, OFF),
        _ => return None,
    };
    Some(Step { status, order })
}

/// The step after the waiting order was carried out.
fn order_done(machine: &Machine) -> Option<Step>
    ensures { result ≡ step_of machine.now (Answer outcome.Done) }
{
    let status = match machine.status {
        Status::Releasing => Status::Ready,
        Status::ExitingRescue => machine.back?,
        _ => return None,
    };
    Some(Step {
        status,
        order: None,
    })
}

/// The step after the current boot reports that it failed, or after a fourth boot is asked for.
fn boot_failed(machine: &Machine) -> Option<Step>
    ensures failed { result ≡ step_of machine.now (Report progress.Failed) }
    ensures fourth_boot { result ≡ step_of machine.now FourthBoot }
{
    let status = match machine.status {
        Status::Commissioning => Status::FailedCommissioning,
        Status::Testing => Status::FailedTesting,
        Status::Deploying => Status::FailedDeployment,
        Status::DiskErasing => Status::FailedDiskErasing,
        Status::EnteringRescue => Status::FailedToEnterRescue,
        _ => return None,
    };
    Some(Step {
        status,
        order: None,
    })
}

/// The step after the waiting order failed, or after the deadline has come.
fn order_failed(machine: &Machine) -> Option<Step>
    ensures failed { result ≡ step_of machine.now (Answer outcome.Failed) }
    ensures expired { result ≡ step_of machine.now Expired }
{
    let status = match machine.status {
        Status::Releasing => Status::FailedReleasing,
        Status::ExitingRescue => Status::FailedToExitRescue,
        _ => return boot_failed(machine),
    };
    Some(Step {
        status,
        order: None,
    })
}

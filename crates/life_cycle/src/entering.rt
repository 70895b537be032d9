//! Entering a status.
ghost use Rattle.std.specs.{Prelude.{◌≡◌, ◌↔◌, ◌≤◌, IsSome, IsErr, IfSome}, Result.result_ok};
ghost use Rattle.hall_types.specs.Number.{max_number};
ghost use Rattle.life_cycle.specs.Entering.{back_after, boot_after, entered, is_rescue, keeps_erase, keeps_owner, limit_of, machine_in};

use crate::step::Step;
use hall_types::{
    BootCount, LastIssued, Machine, Moment, Number, Numbers, Order, OrderStage, Status,
};
use thiserror::Error;

/// What entering a status makes of a machine.
#[derive(Clone, Copy)]
pub struct Entered {
    /// The machine in its new status.
    pub machine: Machine,
    /// The last numbers that were given out, with the new order's.
    pub numbers: Numbers,
    /// The order that is queued with the step.
    pub order: Option<Order>,
    /// The number of the order that waited until now and is withdrawn.
    pub withdrawn: Option<Number>,
}

/// All numbers of orders were given out, so no order can be queued.
#[derive(Clone, Copy, Debug, PartialEq, Eq, Error)]
#[error("Exhausted")]
pub struct Exhausted;

/// The maximum number of seconds in a status, `None` where there is no limit.
#[tactic(auto, unfolding(crate::specs::Entering::limit_of))]
fn limit_of(status: Status) -> Option<u64>
    ensures limit { result ≡ limit_of status }
    ensures small { IfSome result (λ limit. limit ≤ 7200) }
{
    match status {
        Status::Releasing | Status::ExitingRescue => Some(600),
        Status::EnteringRescue => Some(1200),
        Status::Commissioning => Some(1800),
        Status::Deploying => Some(2400),
        Status::Testing => Some(3600),
        Status::DiskErasing => Some(7200),
        _ => None,
    }
}

#[tactic(auto, unfolding(crate::specs::Entering::keeps_owner))]
fn keeps_owner(status: Status) -> bool
    ensures { result ≡ keeps_owner status }
{
    !matches!(status, Status::Ready | Status::Broken)
}

#[tactic(auto, unfolding(crate::specs::Entering::keeps_erase))]
fn keeps_erase(status: Status) -> bool
    ensures { result ≡ keeps_erase status }
{
    matches!(status, Status::DiskErasing | Status::FailedDiskErasing)
}

/// The current boot of a machine that enters a status.
#[tactic(auto, unfolding(crate::specs::Entering::boot_after))]
fn boot_after(machine: &Machine, status: Status) -> Option<Number>
    ensures { result ≡ boot_after machine.now.status status machine.now.boot }
{
    match (machine.status, status) {
        (Status::EnteringRescue, Status::Rescue) => machine.boot,
        _ => None,
    }
}

#[tactic(auto, unfolding(crate::specs::Entering::is_rescue))]
fn is_rescue(status: Status) -> bool
    ensures { result ≡ is_rescue status }
{
    matches!(
        status,
        Status::EnteringRescue
            | Status::FailedToEnterRescue
            | Status::Rescue
            | Status::ExitingRescue
            | Status::FailedToExitRescue
    )
}

/// The status that the rescue began from, after a machine enters a status.
#[tactic(auto, unfolding(crate::specs::Entering::back_after, crate::specs::Entering::is_origin))]
fn back_after(machine: &Machine, status: Status) -> Option<Status>
    ensures { result ≡ back_after machine.now.status status machine.now.back }
{
    if !is_rescue(status) {
        return None;
    }
    match machine.status {
        Status::Deployed | Status::Broken => Some(machine.status),
        _ => machine.back,
    }
}

/// The machine in its new status.
fn machine_in(machine: &Machine, status: Status, moment: Moment, waiting: Option<Number>) -> Machine
    ensures { result ≡ machine_in machine.now status moment waiting }
{
    let is_kept = keeps_owner(status);
    Machine {
        status,
        owner: if is_kept { machine.owner } else { None },
        image: if is_kept { machine.image } else { None },
        back: back_after(machine, status),
        erase: if keeps_erase(status) {
            machine.erase
        } else {
            None
        },
        version: machine.version.raised(),
        deadline: limit_of(status).map(|limit| moment.get() + limit),
        boot: boot_after(machine, status),
        boots: BootCount::NONE,
        waiting,
        ..*machine
    }
}

/// Enters the status of a step at a moment: the machine afterwards, with a new version and deadline, and
/// the order that is queued with the step.
///
/// The caller sets what a command gives (owner, image, tests, the kind of erasing) in the machine that it
/// passes. `withdrawn` is that machine's waiting order. An order that was just answered is not withdrawn:
/// its caller passes a machine whose `waiting` is `None` already.
///
/// # Errors
///
/// `Exhausted` if the step queues an order and all numbers of orders were given out.
pub fn enter(
    machine: &Machine,
    step: Step,
    moment: Moment,
    numbers: Numbers,
) -> Result<Entered, Exhausted>
    ensures entered { result_ok result ≡ entered machine.now step moment numbers }
    ensures exhausted { IsErr result ↔ (IsSome step.order × (numbers.order ≡ max_number)) }
{
    let withdrawn = machine.waiting;
    let Some(kind) = step.order else {
        let machine = machine_in(machine, step.status, moment, None);
        return Ok(Entered {
            machine,
            numbers,
            order: None,
            withdrawn,
        });
    };
    let Some(number) = numbers.order.next() else {
        return Err(Exhausted);
    };
    let order = Order {
        number,
        machine: machine.id,
        kind,
        stage: OrderStage::Waiting,
    };
    let machine = machine_in(machine, step.status, moment, Some(number));
    let numbers = Numbers {
        order: LastIssued::from(number),
        ..numbers
    };
    Ok(Entered {
        machine,
        numbers,
        order: Some(order),
        withdrawn,
    })
}

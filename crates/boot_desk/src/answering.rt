//! What becomes of the power program's answer to an order.
ghost use Rattle.std.specs.{Prelude.{◌≡◌, [], ◌∷◌}, Option.option_copied};
ghost use Rattle.boot_desk.specs.{Decided.Decides, OrderAnswer.{answered, answered_with, idle, stage_for}};

use crate::fault::{DeskFault, Verdict};
use crate::following::{first_row, machine_row, with_entry, with_row};
use crate::views::{BootView, OrderView};
use hall_types::{Change, Machine, Moment, Order, OrderStage, Outcome, Refusal, RowWrite};
use life_cycle::{Signal, Step, next};
use std::alloc::Global;

fn stage_for(outcome: Outcome) -> OrderStage
    ensures { result ≡ stage_for outcome }
{
    match outcome {
        Outcome::Done => OrderStage::Done,
        Outcome::Failed => OrderStage::Failed,
    }
}

// The machine without an order that it waits for.
fn idle(machine: &Machine) -> Machine
    ensures { result ≡ idle machine.now }
{
    Machine {
        waiting: None,
        version: machine.version.raised(),
        ..*machine
    }
}

fn answered_with(
    alloc: Global,
    write: RowWrite,
    view: &BootView,
    moment: Moment,
    step: Option<Step>,
) -> Result<(Change, Verdict), DeskFault>
    ensures { Decides result (answered_with write view.now moment step) }
{
    let rows = first_row(alloc, write)?;
    if let Some(step) = step {
        let change = with_entry(rows, &view.machine, None, step, moment, view.numbers)?;
        return Ok((change, Verdict::Counted));
    }
    let change = with_row(rows, machine_row(&view.machine, idle(&view.machine)))?;
    Ok((change, Verdict::Counted))
}

fn repeat(alloc: Global) -> (Change, Verdict)
    ensures { result ≡ ([], Verdict.Repeat) }
{
    (Change::from(Vec::new(alloc)), Verdict::Repeat)
}

/// What becomes of the power program's answer to an order: the rows to write, and whether it counts or repeats.
/// `view` has the order with the number and its machine, if there is one, in rows of one sound hall.
///
/// It is refused for the first of NoOrder, Spent (the order has the other outcome) and Withdrawn.
#[tactic(auto, unfolding(crate::specs::OrderAnswer::answered))]
pub fn order_answer(
    alloc: Global,
    view: Option<&OrderView>,
    outcome: Outcome,
    moment: Moment,
) -> Result<(Change, Verdict), DeskFault>
    ensures { Decides result (answered (option_copied view.entry) outcome moment) }
{
    let Some(view) = view else {
        return Err(DeskFault::Refused(Refusal::NoOrder));
    };
    match (view.asked.stage, outcome) {
        (OrderStage::Waiting, _) => {
            let order = Order {
                stage: stage_for(outcome),
                ..view.asked
            };
            let step = next(&view.at.machine, Signal::Answer(outcome));
            answered_with(alloc, RowWrite::PutOrder(order), &view.at, moment, step)
        }
        (OrderStage::Done, Outcome::Done) | (OrderStage::Failed, Outcome::Failed) => Ok(repeat(
            alloc,
        )),
        (OrderStage::Done | OrderStage::Failed, _) => Err(DeskFault::Refused(Refusal::Spent)),
        (OrderStage::Withdrawn, _) => Err(DeskFault::Refused(Refusal::Withdrawn)),
    }
}

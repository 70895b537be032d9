//! The rows that a machine's entry into a status writes.
ghost use Rattle.std.specs.Prelude.{◌≡◌, ◌++◌, [], ◌∷◌, IfOk, OnOk};
ghost use Rattle.boot_desk.specs.{Decided.Decides, Following.{entry_rows, followed, machine_row, with_entry}};
ghost use Rattle.life_cycle.specs.Entering.{entered};

use crate::fault::DeskFault;
use crate::views::BootView;
use hall_types::{Change, Machine, Moment, Numbers, Order, OrderStage, Refusal, RowWrite};
use life_cycle::{Entered, Step, enter};
use std::alloc::{AllocError, Global};

/// A machine's row in the place of the one that it had.
pub fn machine_row(before: &Machine, after: Machine) -> RowWrite
    ensures { result ≡ machine_row before.now after }
{
    RowWrite::PutMachine {
        machine: after,
        was: Some(before.version),
    }
}

/// The first row of some.
pub(crate) fn first_row(alloc: Global, row: RowWrite) -> Result<Vec<RowWrite>, AllocError>
    ensures { IfOk result (λ rows. rows.items ≡ row ∷ []) }
{
    let mut rows = Vec::new(alloc);
    rows.push(row)?;
    Ok(rows)
}

/// Some rows, and one more.
pub(crate) fn with_row(rows: Vec<RowWrite>, row: RowWrite) -> Result<Change, AllocError>
    ensures { IfOk result (λ change. change ≡ rows.items ++ row ∷ []) }
{
    let mut rows = rows;
    rows.push(row)?;
    Ok(Change::from(rows))
}

fn push_entry(
    rows: &mut Vec<RowWrite>,
    before: &Machine,
    waiting: Option<Order>,
    entered: &Entered,
) -> Result<(), AllocError>
    ensures { OnOk result (rows.new.items ≡ rows.old.items ++ entry_rows before.now waiting entered.now) }
{
    rows.push(machine_row(before, entered.machine))?;
    if let Some(order) = waiting {
        rows.push(RowWrite::PutOrder(Order {
            stage: OrderStage::Withdrawn,
            ..order
        }))?;
    }
    if let Some(order) = entered.order {
        rows.push(RowWrite::PutOrder(order))?;
        rows.push(RowWrite::PutNumbers(entered.numbers))?;
    }
    Ok(())
}

/// The rows of a machine's entry into a status: its row, the order that waited, which is withdrawn, and the order that is
/// queued with the last numbers.
pub fn entry_rows(
    alloc: Global,
    before: &Machine,
    waiting: Option<Order>,
    entered: &Entered,
) -> Result<Vec<RowWrite>, AllocError>
    ensures { IfOk result (λ rows. rows.items ≡ entry_rows before.now waiting entered.now) }
{
    let mut rows = Vec::new(alloc);
    push_entry(&mut rows, before, waiting, entered)?;
    Ok(rows)
}

/// The rows of a machine's step after some others. The order that waited is withdrawn, unless none is given.
pub(crate) fn with_entry(
    rows: Vec<RowWrite>,
    machine: &Machine,
    waiting: Option<Order>,
    step: Step,
    moment: Moment,
    numbers: Numbers,
) -> Result<Change, DeskFault>
    ensures { Decides result (with_entry rows.items machine.now waiting (entered machine.now step moment numbers)) }
{
    let mut rows = rows;
    let Ok(entered) = enter(machine, step, moment, numbers) else {
        return Err(DeskFault::Refused(Refusal::Exhausted));
    };
    push_entry(&mut rows, machine, waiting, &entered)?;
    Ok(Change::from(rows))
}

/// Some rows, and then those of the step that a machine takes, if it takes one.
#[tactic(auto, unfolding(crate::specs::Following::followed))]
pub(crate) fn follow(
    rows: Vec<RowWrite>,
    view: &BootView,
    moment: Moment,
    step: Option<Step>,
) -> Result<Change, DeskFault>
    ensures { Decides result (followed rows.items view.now moment step) }
{
    match step {
        Some(step) => with_entry(rows, &view.machine, view.order, step, moment, view.numbers),
        None => Ok(Change::from(rows)),
    }
}

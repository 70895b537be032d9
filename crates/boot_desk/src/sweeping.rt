//! Which machine expires at a quiet moment.
ghost use Rattle.std.specs.{Prelude.{◌≡◌, [], IfOk}, Option.option_copied};
ghost use Rattle.boot_desk.specs.Expiry.{is_due, swept};

use crate::fault::DeskFault;
use crate::following::follow;
use crate::views::BootView;
use hall_types::{Change, Moment};
use life_cycle::{Signal, next};
use std::alloc::{AllocError, Global};

fn is_due(deadline: Option<u64>, moment: Moment) -> bool
    ensures { result ≡ is_due deadline moment }
{
    match deadline {
        Some(deadline) => deadline <= moment.get(),
        None => false,
    }
}

/// The rows of the machine that expires at a moment. `view` has the machine whose deadline comes first, if any
/// machine has one, in rows of one sound hall. There are no rows if it isn't due.
#[tactic(auto, unfolding(crate::specs::Expiry::swept))]
pub fn sweep(alloc: Global, view: Option<&BootView>, moment: Moment) -> Result<Change, AllocError>
    ensures { IfOk result (λ change. change ≡ swept (option_copied view.entry) moment) }
{
    let rows = Vec::new(alloc);
    let Some(view) = view else {
        return Ok(Change::from(rows));
    };
    if !is_due(view.machine.deadline, moment) {
        return Ok(Change::from(rows));
    }
    match follow(rows, view, moment, next(&view.machine, Signal::Expired)) {
        Ok(change) => Ok(change),
        Err(DeskFault::Refused(_)) => Ok(Change::from(Vec::new(alloc))),
        Err(DeskFault::Memory) => Err(AllocError),
    }
}

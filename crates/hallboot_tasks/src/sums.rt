//! What a hall amounts to, for a line about a copy.
ghost use Rattle.hall_desk.specs.Attempt.{IsOnlyRead};

use hall_report::Fault;
use hall_store::HallStore;
use hall_types::Numbers;
use std::alloc::{AllocError, Global};

/// How many machines a hall has, and its last numbers.
#[derive(Clone, Copy, PartialEq, Eq)]
pub struct HallSum {
    machines: u64,
    last: Numbers,
}

impl HallSum {
    /// Whether a last number is lower than that of another hall: it is another hall, or was later.
    pub(crate) fn is_behind(&self, other: &HallSum) -> bool {
        let (last, its) = (self.last, other.last);
        last.machine.get() < its.machine.get()
            || last.boot.get() < its.boot.get()
            || last.order.get() < its.order.get()
    }
}

/// That of a store's hall, which is only read.
pub fn sum_of<S: HallStore>(store: &mut S) -> Result<HallSum, Fault>
    ensures { S.HallStore.is_clean store.new → S.HallStore.is_clean store.old × IsOnlyRead S.HallStore store.old store.new }
{
    Ok(HallSum {
        machines: store.machine_count().map_err(|_| Fault::Unavailable)?,
        last: store.numbers().map_err(|_| Fault::Unavailable)?,
    })
}

/// In words, as `12 machines; last numbers: machine 14, boot 30, order 41`.
pub fn sum_text(alloc: Global, sum: &HallSum) -> Result<String, AllocError> {
    let (machines, last) = (sum.machines, sum.last);
    let (machine, boot, order) = (last.machine.get(), last.boot.get(), last.order.get());
    format!(in alloc;
        "{machines} machines; last numbers: machine {machine}, boot {boot}, order {order}"
    )
}

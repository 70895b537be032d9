//! How many machines there are.
ghost use Rattle.sql_schema.specs.Words.{sum_by, state, HasCleanDisk, size, IsTableRead};
ghost use Rattle.std.specs.Prelude.{◌≡◌, IfOk};

use hall_store::Count;
use sql_items::list_counts;
use sqlite::{Alter, Connection, Error};
use std::alloc::Global;

// The machines of all counts together.
fn machines_in(counts: &[Count]) -> Result<u64, Error>
    ensures { IfOk result (λ machines. machines ≡ sum_by (λ count. count.machines) counts.now) }
{
    let mut machines: u64 = 0;
    'counts: for count in counts {
        machines = machines
            .checked_add(count.machines)
            .ok_or(Error::InvalidQuery)?;
    }
    Ok(machines)
}

/// How many machines there are: the sum of the counts that are kept, so that no machine is looked at.
pub(crate) fn count_machines<S: Alter>(
    alloc: Global,
    conn: &mut Connection<S>,
) -> Result<u64, Error>
    ensures clean { HasCleanDisk (state S.Store conn.new) → HasCleanDisk (state S.Store conn.old) }
    ensures asked { HasCleanDisk (state S.Store conn.new) → IsTableRead (state S.Store conn.old) (state S.Store conn.new) result (λ h machines. machines ≡ size h.machines) }
{
    match list_counts(alloc, conn) {
        Ok(counts) => machines_in(&counts),
        Err(error) => Err(error),
    }
}

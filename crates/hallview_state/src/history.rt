//! The statuses of a hall over the last day, a sample every ten minutes.
ghost use Rattle.std.specs.Prelude.{◌<◌, vec_capacity, vec_len};

use crate::listed::Listed;
use crate::text::DAY;
use hall_types::Status;

/// The number of statuses.
pub const STATUSES: usize = Status::ALL.len();

/// The seconds between two samples.
pub const SLOT: u64 = 600;

/// How many machines had each status, by the statuses' numbers.
#[derive(Clone, Copy)]
pub struct Sample {
    /// The multiple of 600 seconds since 1970 from which on it is.
    pub at: u64,
    pub counts: [u64; STATUSES],
}

/// How many machines have each status.
pub fn counts_of(machines: &[Listed]) -> [u64; STATUSES] {
    let mut counts = [0; STATUSES];
    for one in machines {
        if let Some(count) = counts.get_mut(one.machine.status.number() as usize) {
            *count = u64::saturating_add(*count, 1);
        }
    }
    counts
}

/// Adds the sample of a list, if it is the first one of its ten minutes, and takes out those that are older than a day. There is room for it.
pub(crate) fn add_sample(history: &mut Vec<Sample>, machines: &[Listed], now: u64)
    requires { vec_len history.old < vec_capacity history.old }
{
    let at = now - now % SLOT;
    if let Some(last) = history.last() {
        if last.at == at {
            return;
        }
    }
    history.retain(|sample| sample.at.saturating_add(SLOT + DAY) > now);
    let counts = counts_of(machines);
    if history.push(Sample { at, counts }).is_err() {
        unreachable!();
    }
}

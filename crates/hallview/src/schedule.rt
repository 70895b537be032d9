//! When a desk is asked. Moments and times are milliseconds.
ghost use Rattle.std.specs.Prelude.{◌≡◌, ◌+◌, ◌-◌, ◌*◌, ◌/◌, ◌≤◌, ◌<◌, ◌^◌, IfNone, IfSome, max, min};
ghost use Rattle.hallview.specs.Due.{IsDueFirst, NoneDue};

use crate::least::least_place;
use crate::times::until;

// An answer counts as one that took an hour at most.
const HOUR: u64 = 3_600_000;

// How long it is at most until a desk that gave no answer is asked again, unless more is wished.
const LONGEST_RETRY: u64 = 30_000;

// The milliseconds of a second.
const SECOND: u64 = 1_000;

/// How long it is from one time that a desk is asked to the next: what is wished, or ten times as long as the last answer took, so that
/// the desk answers for a tenth of the time at most.
pub(crate) fn pause(wished: u64, took: u64) -> u64
    ensures pause { result ≡ max wished (10 * min took HOUR) }
    ensures wished { wished ≤ result }
    ensures tenth { took ≤ HOUR → 10 * took ≤ result }
{
    wished.max(10 * took.min(HOUR))
}

/// How long it is until a desk is asked again that gave no answer for so long.
pub(crate) fn retry_pause(wished: u64, took: u64) -> u64
    ensures retry { result ≡ max wished (min (10 * min took HOUR) LONGEST_RETRY) }
    ensures wished { wished ≤ result }
{
    wished.max((10 * took.min(HOUR)).min(LONGEST_RETRY))
}

/// The whole seconds of a time, rounded up.
pub(crate) fn seconds_of(time: u64) -> u64
    ensures enough { time ≤ 1_000 * result }
    ensures least { 1_000 * result < time + 1_000 }
{
    time.div_ceil(SECOND)
}

/// How long after the first of so many desks this one is asked for the first time, so that they are asked spread over the pause.
pub(crate) fn head_start(pause: u64, place: u64, count: u64) -> u64
    ensures { result ≡ min (pause * place) (2 ^ 64 - 1) / max count 1 }
{
    pause.saturating_mul(place) / count.max(1)
}

/// The moment nearest to this one that comes a whole number of pauses after the first time that a desk is asked, so that desks stay
/// spread over the pause though one was asked late.
pub(crate) fn nearest(moment: u64, first: u64, pause: u64) -> u64
    ensures soon { result ≤ moment + pause / 2 }
    ensures late { moment ≤ result + pause / 2 }
{
    let past = moment.saturating_sub(first) % pause.max(1);
    if past <= pause / 2 {
        moment.saturating_sub(past)
    } else {
        moment.saturating_add(pause.saturating_sub(past))
    }
}

/// The first of the desks whose time has come, by when each is due.
pub(crate) fn next_due(dues: &[u64], now: u64) -> Option<usize>
    ensures due { IfSome result (IsDueFirst dues.now now) }
    ensures none { IfNone result (NoneDue dues.now now) }
{
    if dues.is_empty() {
        return None;
    }
    let place = least_place(dues);
    if dues[place] <= now {
        Some(place)
    } else {
        None
    }
}

/// The time until the first desk is due, and at most this time.
pub(crate) fn left_to_due(dues: &[u64], now: u64, most: u64) -> u64
    ensures { result ≤ most }
{
    if dues.is_empty() {
        return most;
    }
    most.min(until(now, dues[least_place(dues)]))
}

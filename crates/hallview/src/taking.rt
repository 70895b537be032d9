//! What becomes of a hall when its desk has sent an answer.
ghost use Rattle.hallview.specs.Taking.{HasTaken};

use hallctl_requests::read_response;
use hallview_state::{Hall, Loss, Received};
use std::alloc::Global;

/// Has a hall take what its desk sent, which came at a moment, in seconds since 1970, after so many milliseconds.
pub(crate) fn take(alloc: Global, hall: &mut Hall, octets: Vec<u8>, now: u64, took: u64)
    ensures { HasTaken hall.old hall.new octets.items now took }
{
    let Ok(response) = read_response(octets.as_slice()) else {
        return hall.lose(Loss::NotHttp);
    };
    let status = response.status;
    let start = octets.len().saturating_sub(response.body.len());
    let received = Received {
        status,
        octets,
        start,
    };
    hall.take(alloc, received, now, took);
}

//! Reading one request.
ghost use Rattle.std.specs.Prelude.{◌≡◌, ◌≤◌, false};
ghost use Rattle.hall_http.specs.Noted.{calls_of, failed_of, inner_of, takes_of};
ghost use Rattle.hall_desk.specs.Served.{IfFailed, IfNotFailed, IsReadByNeed, IsReadInTime, IsRequestOf, TakesWhole};

use hall_http::{Noted, PartialRequest, Request};
use std::alloc::{AllocError, Global};
use std::io::Read;

/// The most reads of one request.
const MAX_READS: u16 = 4096;

/// What was read.
#[derive(Drop)]
pub(crate) enum Reading {
    /// A request that is decided, or all of the input as one.
    Whole(Request),
    NoMemory,
    /// A read failed, or the reads came to their maximum.
    Failed,
}

// The request that the octets are.
fn whole(alloc: Global, partial: PartialRequest) -> Reading
    ensures { IsRequestOf partial result }
{
    match partial.finish(alloc) {
        Ok(request) => Reading::Whole(request),
        Err(AllocError) => Reading::NoMemory,
    }
}

/// Reads until the request is decided or the input ends.
pub(crate) fn read_request<R: Read>(alloc: Global, reader: &mut Noted<R>) -> Reading
    requires takes { takes_of reader.old ≡ 0 }
    requires failed { failed_of reader.old ≡ false }
    ensures reads { TakesWhole result (R.remaining (inner_of reader.old)) (R.remaining (inner_of reader.new)) }
    ensures fails { IfFailed result (failed_of reader.new) (takes_of reader.new) }
    ensures in_time { IsReadInTime (R.remaining (inner_of reader.old)) (R.remaining (inner_of reader.new)) }
    ensures by_need { calls_of reader.old ≡ 0 → IsReadByNeed (R.remaining (inner_of reader.old)) (R.remaining (inner_of reader.new)) (calls_of reader.new) (takes_of reader.new) }
    ensures takes { takes_of reader.new ≤ 4096 }
    ensures unfailed { IfNotFailed result (failed_of reader.new) }
{
    let mut partial = PartialRequest::new(alloc);
    let mut piece = [0; 512];
    for turn in 0..MAX_READS {
        let Some(count) = reader.take(&mut piece) else {
            return Reading::Failed;
        };
        if count == 0 {
            return whole(alloc, partial);
        }
        match partial.add(alloc, &piece[..count]) {
            Ok(true) => return whole(alloc, partial),
            Ok(false) => (),
            Err(AllocError) => return Reading::NoMemory,
        }
    }
    Reading::Failed
}

//! The head of a request.
ghost use Rattle.std.specs.Prelude.{length};
ghost use Rattle.hall_http.specs.Head.{FindsHead};

use httparse::Status;
use httparse::spans::{HeaderSpan, RequestSpans, parse_request};

/// The maximum number of a head's octets.
pub(crate) const MAX_HEAD_LEN: usize = 8192;

/// The maximum number of a head's fields.
pub(crate) const MAX_FIELDS: usize = 64;

/// What octets begin with.
#[derive(Clone, Copy)]
pub(crate) enum Look {
    /// A head.
    Head(RequestSpans),
    /// No head, which more octets may complete.
    Open,
    /// No head of as many fields as there is room for, whatever follows.
    Never,
}

/// Looks for a head at the front of the octets, and puts its fields into `room`.
pub(crate) fn look_for_head(octets: &[u8], room: &mut [HeaderSpan]) -> Look
    ensures { FindsHead octets.now (length room.old) room.new result }
{
    match parse_request(octets, room) {
        Ok(Status::Complete(spans)) => Look::Head(spans),
        Ok(Status::Partial) => Look::Open,
        Err(_) => Look::Never,
    }
}

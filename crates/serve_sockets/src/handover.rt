//! What a log is told of an arrival and of its answer.
ghost use Rattle.std.specs.Prelude.{◌≡◌};
ghost use Rattle.serve_sockets.specs.Turn.{is_unavailable, said_of};

use crate::turn::{Handover, Kind, Said};
use hall_desk::Answer;
use std::net::SocketAddr;

fn said(answer: &Answer) -> Said
    ensures { result ≡ said_of answer.now }
{
    match answer {
        Answer::Frame(octets) => Said::Frame {
            len: octets.as_slice().len(),
        },
        Answer::Response { status, octets } => Said::Response {
            status: *status,
            len: octets.as_slice().len(),
        },
        Answer::Unavailable => Said::Unavailable,
        Answer::Silence => Said::Silence,
    }
}

/// Whether an arrival counts as not having come.
pub(crate) fn is_unavailable(answer: &Answer) -> bool
    ensures { result ≡ is_unavailable answer.now }
{
    matches!(answer, Answer::Unavailable)
}

/// What came, and how it was answered.
pub(crate) fn handover(
    kind: Kind,
    from: Option<SocketAddr>,
    len: usize,
    answer: &Answer,
) -> Handover
    ensures kind { result.kind ≡ kind }
    ensures from { result.from ≡ from }
    ensures len { result.len ≡ len }
    ensures said { result.said ≡ said_of answer.now }
{
    Handover {
        kind,
        from,
        len,
        said: said(answer),
    }
}

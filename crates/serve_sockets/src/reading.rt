//! Reading what a connection's client sends.
ghost use Rattle.std.specs.Prelude.{◌≤◌, length};
ghost use Rattle.serve_sockets.specs.Connection.{IsTaken};

use hall_http::PartialRequest;
use std::alloc::{AllocError, Global};
use std::io::{ErrorKind, Read};

/// The maximum of a request's octets: a head of 8,192 and a body of 16,384. So many always decide a request.
const MAX_INPUT: usize = 8_192 + 16_384;

/// What a read of a connection came to.
#[derive(Clone, Copy)]
pub(crate) enum Taken {
    /// Nothing is there now.
    Waits,
    /// Octets came, and the request isn't decided.
    More,
    /// The request is decided.
    Whole,
    /// The client has sent all, and the request isn't decided.
    Ended,
    NoMemory,
    Failed,
}

/// Reads once, into a buffer that isn't empty, and adds what came to the request.
pub(crate) fn read<T: Read>(
    stream: &mut T,
    alloc: Global,
    partial: &mut PartialRequest,
    buffer: &mut [u8],
) -> Taken
    requires { length partial.old ≤ 24576 }
    ensures taken { IsTaken result (T.remaining stream.old) (T.remaining stream.new) partial.old partial.new }
    ensures bounded { length partial.new ≤ 24576 }
{
    let size = (MAX_INPUT - partial.octets().len()).min(buffer.len());
    if size == 0 {
        return Taken::Failed;
    }
    let count = match stream.read(&mut buffer[..size]) {
        Ok(count) => count,
        Err(error) if error.kind() == ErrorKind::WouldBlock => return Taken::Waits,
        Err(_) => return Taken::Failed,
    };
    if count == 0 {
        return Taken::Ended;
    }
    match partial.add(alloc, &buffer[..count]) {
        Ok(true) => Taken::Whole,
        Ok(false) => Taken::More,
        Err(AllocError) => Taken::NoMemory,
    }
}

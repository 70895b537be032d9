//! Writing what waits for a connection's client.
ghost use Rattle.std.specs.{Prelude.{◌≡◌}, Io.KnownBytes.{Keeps, append_known}};
ghost use Rattle.serve_sockets.specs.Connection.{IsPut, unwritten};

use crate::connection::Sending;
use std::io::{ErrorKind, Write};

/// What a write of a connection came to.
#[derive(Clone, Copy)]
pub(crate) enum Put {
    /// The client takes nothing now.
    Waits,
    /// The client took octets, and some are left.
    More,
    /// No octets are left.
    Done,
    Failed,
}

/// Writes once. Since when the client has taken nothing is told anew where it takes something, and octets are left.
pub(crate) fn write<T: Write>(
    stream: &mut T,
    sending: &mut Sending,
    since: &mut u64,
    now: u64,
) -> Put
    ensures octets { Keeps (append_known (T.contents stream.old) (unwritten sending.old)) (append_known (T.contents stream.new) (unwritten sending.new)) }
    ensures put { IsPut now result since.old since.new (unwritten sending.new) }
    ensures answer { sending.new.answer ≡ sending.old.answer }
{
    let octets = sending.answer.octets();
    let len = octets.len();
    if sending.written < len {
        match stream.write(&octets[sending.written..]) {
            Ok(0) => return Put::Failed,
            Ok(count) => {
                sending.written += count;
                *since = now;
            }
            Err(error) if error.kind() == ErrorKind::WouldBlock => return Put::Waits,
            Err(_) => return Put::Failed,
        }
    }
    if sending.written < len {
        Put::More
    } else {
        Put::Done
    }
}

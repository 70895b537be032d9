//! One try over a socket.
ghost use Rattle.std.specs.Prelude.{◌≤◌, length, IfOk};

use crate::dial::{Attempt, Why};
use std::alloc::Global;
use std::io;
use std::io::{ErrorKind, Read, Write};
use std::net::{SocketAddr, TcpStream, ToSocketAddrs};
use std::time::{Duration, Instant};

// The milliseconds that a connection to one address may take.
const CONNECTING: u64 = 5_000;

// The milliseconds that may pass between two pieces of an answer.
const BETWEEN_PIECES: u64 = 10_000;

/// The maximum of octets of an answer: a body of 64 MiB and a head.
const MAX_ANSWER_LEN: usize = 67_117_056;

// How many octets are read at once.
const PIECE: usize = 16_384;

// Why there is no answer, of what the system refused.
fn why_of(error: &io::Error) -> Why {
    match error.kind() {
        ErrorKind::ConnectionRefused => Why::Refused,
        ErrorKind::TimedOut | ErrorKind::WouldBlock => Why::Late,
        ErrorKind::HostUnreachable | ErrorKind::NetworkUnreachable => Why::Unreachable,
        _ => Why::Closed,
    }
}

/// The time of one try until something comes.
#[derive(Clone, Copy)]
pub(crate) struct Time {
    start: Instant,
    milliseconds: u64,
}

impl Time {
    /// So many milliseconds from now on. `None` where the system's clock fails.
    pub(crate) fn from_now(rt: &HostRuntime, milliseconds: u64) -> Option<Time> {
        let start = Instant::now(rt).ok()?;
        Some(Time {
            start,
            milliseconds,
        })
    }

    // How much of it is left.
    fn left(&self, rt: &HostRuntime) -> Option<Duration> {
        let passed = self.start.elapsed(rt).ok()?;
        let left = Duration::from_millis(self.milliseconds).checked_sub(passed)?;
        if left.is_zero() { None } else { Some(left) }
    }
}

fn connected_to(rt: &HostRuntime, address: SocketAddr, time: &Time) -> Result<TcpStream, Why> {
    let left = time.left(rt).ok_or(Why::Late)?;
    let limit = left.min(Duration::from_millis(CONNECTING));
    TcpStream::connect_timeout(rt, &address, limit).map_err(|error| why_of(&error))
}

/// A connection to the desk at this host and port, at the first of its addresses that takes one.
pub(crate) fn connected(
    rt: &HostRuntime,
    host: &str,
    port: u16,
    time: &Time,
) -> Result<TcpStream, Why> {
    let addresses = (host, port)
        .to_socket_addrs(rt)
        .map_err(|_| Why::NoAddress)?;
    let mut last = Why::NoAddress;
    for address in addresses {
        match connected_to(rt, address, time) {
            Ok(stream) => return Ok(stream),
            Err(why) => last = why,
        }
    }
    Err(last)
}

/// How the octets of an answer end.
#[derive(Clone, Copy)]
enum End {
    /// No more octets came, for this reason.
    Over(Why),
    TooLong,
    Memory,
}

// How long the next piece of an answer may take: the first one comes in the time of the try, each further one is waited for anew.
fn limit(rt: &HostRuntime, time: &Time, has_begun: bool) -> Option<Duration> {
    if has_begun {
        Some(Duration::from_millis(BETWEEN_PIECES))
    } else {
        time.left(rt)
    }
}

// Reads a piece of the answer: how many octets it has, or why there is none.
fn read_piece(
    stream: &mut TcpStream,
    limit: Option<Duration>,
    piece: &mut [u8],
) -> Result<usize, Why>
    ensures { IfOk result (λ count. count ≤ length piece.new) }
{
    let limit = limit.ok_or(Why::Late)?;
    stream
        .set_read_timeout(Some(limit))
        .map_err(|_| Why::Closed)?;
    stream.read(piece).map_err(|error| why_of(&error))
}

// Reads until the connection is closed, nothing comes any more, or there is too much.
fn read_all(rt: &HostRuntime, stream: &mut TcpStream, time: &Time, octets: &mut Vec<u8>) -> End {
    let mut piece = [0; PIECE];
    for _ in 0..u64::MAX {
        let limit = limit(rt, time, !octets.is_empty());
        match read_piece(stream, limit, &mut piece) {
            Ok(0) => return End::Over(Why::Closed),
            Ok(count) => {
                if octets.extend_from_slice(&piece[..count]).is_err() {
                    return End::Memory;
                }
            }
            Err(why) => return End::Over(why),
        }
        if octets.len() > MAX_ANSWER_LEN {
            return End::TooLong;
        }
    }
    End::TooLong
}

// What comes of a try that ended so.
fn attempt_of(octets: Vec<u8>, end: End) -> Attempt {
    match end {
        End::TooLong => Attempt::TooLong,
        End::Memory => Attempt::Nothing(Why::Memory),
        End::Over(why) if octets.is_empty() => Attempt::Nothing(why),
        End::Over(_) => Attempt::Answer(octets),
    }
}

// Sends all octets. What the desk answers to a part of them is read all the same.
fn send(rt: &HostRuntime, stream: &mut TcpStream, time: &Time, octets: &[u8]) {
    if let Some(left) = time.left(rt) {
        let _ = stream.set_write_timeout(Some(left));
        let _ = stream.write_all(octets);
    }
}

/// Sends the octets over a connection, and gives what came.
pub(crate) fn exchanged(
    rt: &HostRuntime,
    alloc: Global,
    mut stream: TcpStream,
    time: &Time,
    octets: &[u8],
) -> Attempt {
    send(rt, &mut stream, time, octets);
    let mut answer = Vec::new(alloc);
    let end = read_all(rt, &mut stream, time, &mut answer);
    attempt_of(answer, end)
}

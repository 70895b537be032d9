//! One exchange with a desk, over a connection of its own: the request is sent, and then its answer is read, and nothing else. Moments and
//! times are milliseconds.
ghost use Rattle.std.specs.Prelude.{◌≡◌, Ok};
ghost use Rattle.hallctl_requests.specs.Response.{IsReading};

use crate::times::{has_passed, left};
use hallctl_requests::{ResponseFault, read_response};
use hallview_state::Loss;
use mio::net::TcpStream;
use std::alloc::Global;
use std::io::{ErrorKind, Read, Write};

/// How long a connection to an address may take.
const CONNECTING: u64 = 5_000;

/// How long an exchange may go on without an octet.
const BETWEEN_OCTETS: u64 = 10_000;

/// How long an exchange may take in all.
const IN_ALL: u64 = 60_000;

/// The maximum of octets of an answer: 32 MiB.
const MAX_ANSWER_LEN: usize = 33_554_432;

/// How many octets are read at once at most.
pub(crate) const PIECE: usize = 262_144;

/// How far an exchange is.
#[derive(Clone, Copy)]
enum Stage {
    Connecting,
    Sending,
    Reading,
}

/// What a step of an exchange came to.
#[derive(Clone, Copy)]
pub(crate) enum Progress {
    /// The desk gives or takes nothing now.
    Waits,
    /// It goes on.
    Moved,
    /// There is no connection to this address.
    Unconnected,
    /// The answer is whole.
    Whole,
    /// There is no answer.
    Lost(Loss),
}

/// An exchange with a hall's desk.
#[derive(Drop)]
pub(crate) struct Exchange {
    /// The hall's place.
    pub(crate) hall: usize,
    stream: TcpStream,
    /// How many of the desk's addresses were tried before this one.
    pub(crate) tried: usize,
    /// When it began.
    pub(crate) begun: u64,
    // Since when there was no octet.
    since: u64,
    stage: Stage,
    sent: usize,
    /// What came so far.
    pub(crate) answer: Vec<u8>,
}

// Whether octets that came are the whole answer.
fn judged(octets: &[u8]) -> Progress
    ensures whole { result ≡ Progress.Whole → (answer : _) × IsReading octets.now (Ok answer) }
{
    match read_response(octets) {
        Ok(_) => Progress::Whole,
        Err(ResponseFault::Cut) if octets.len() < MAX_ANSWER_LEN => Progress::Moved,
        Err(ResponseFault::Cut) => Progress::Lost(Loss::TooLong),
        Err(ResponseFault::TooLong | ResponseFault::NotHttp) => Progress::Lost(Loss::NotHttp),
    }
}

impl Exchange {
    /// An exchange with a hall's desk that begins now, over a connection that was begun.
    pub(crate) fn new(
        alloc: Global,
        hall: usize,
        stream: TcpStream,
        tried: usize,
        now: u64,
    ) -> Exchange {
        Exchange {
            hall,
            stream,
            tried,
            begun: now,
            since: now,
            stage: Stage::Connecting,
            sent: 0,
            answer: Vec::new(alloc),
        }
    }

    /// Goes on over a connection that was begun to another address.
    pub(crate) fn reconnect(&mut self, stream: TcpStream, tried: usize, now: u64) {
        self.stream = stream;
        self.tried = tried;
        self.since = now;
    }

    fn patience(&self) -> u64 {
        match self.stage {
            Stage::Connecting => CONNECTING,
            Stage::Sending | Stage::Reading => BETWEEN_OCTETS,
        }
    }

    /// The time until it has taken too long.
    pub(crate) fn left(&self, now: u64) -> u64 {
        let between = left(now, self.since, self.patience());
        between.min(left(now, self.begun, IN_ALL))
    }

    /// What becomes of it if it has taken too long.
    pub(crate) fn late_end(&self, now: u64) -> Option<Progress> {
        if has_passed(now, self.begun, IN_ALL) {
            return Some(Progress::Lost(Loss::NoAnswer));
        }
        if !has_passed(now, self.since, self.patience()) {
            return None;
        }
        match self.stage {
            Stage::Connecting => Some(Progress::Unconnected),
            Stage::Sending | Stage::Reading => Some(Progress::Lost(Loss::NoAnswer)),
        }
    }

    // Looks whether there is a connection.
    fn connect(&mut self, now: u64) -> Progress {
        if !matches!(self.stream.take_error(), Ok(None)) {
            return Progress::Unconnected;
        }
        if self.stream.peer_addr().is_err() {
            return Progress::Waits;
        }
        self.stage = Stage::Sending;
        self.since = now;
        Progress::Moved
    }

    // Sends what is left of the request.
    fn send(&mut self, request: &[u8], now: u64) -> Progress {
        let rest = request.get(self.sent..).unwrap_or_default();
        match self.stream.write(rest) {
            Ok(count) if count > 0 => {
                self.sent = self.sent.saturating_add(count);
                self.since = now;
                if self.sent >= request.len() {
                    self.stage = Stage::Reading;
                }
                Progress::Moved
            }
            Err(error) if error.kind() == ErrorKind::WouldBlock => Progress::Waits,
            _ => Progress::Lost(Loss::NoAnswer),
        }
    }

    // Reads a piece of the answer.
    fn read(&mut self, buffer: &mut [u8], now: u64) -> Progress {
        let count = match self.stream.read(buffer) {
            Ok(0) => return Progress::Lost(Loss::NoAnswer),
            Ok(count) => count,
            Err(error) if error.kind() == ErrorKind::WouldBlock => return Progress::Waits,
            Err(_) => return Progress::Lost(Loss::NoAnswer),
        };
        self.since = now;
        if self.answer.extend_from_slice(&buffer[..count]).is_err() {
            return Progress::Lost(Loss::Memory);
        }
        judged(self.answer.as_slice())
    }

    /// Takes a step: sends the request, or reads once into a buffer that isn't empty.
    pub(crate) fn step(&mut self, request: &[u8], buffer: &mut [u8], now: u64) -> Progress {
        match self.stage {
            Stage::Connecting => self.connect(now),
            Stage::Sending => self.send(request, now),
            Stage::Reading => self.read(buffer, now),
        }
    }
}

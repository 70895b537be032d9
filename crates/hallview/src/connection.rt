//! One connection of a client: what it asks by HTTP, and what of the answer it has taken. Moments and times are milliseconds.
use crate::service::Pages;
use crate::times::{has_passed, left};
use http_server::Config;
use mio::net::TcpStream;
use std::alloc::Global;
use std::hash::RandomState;
use std::io::ErrorKind;

/// How long a client may take to send a whole request, from its connection's beginning or the end of the last answer.
const ASKING: u64 = 2_000;

/// How long a client may take to take an answer.
const ANSWERING: u64 = 10_000;

/// The maximum of octets of a request's head. A longer one is refused (RFC 6585 section 5).
const MAX_HEAD_LEN: usize = 8_192;

/// What a step of a connection came to.
#[derive(Clone, Copy)]
pub(crate) enum Step {
    /// The client gives or takes nothing now.
    Waits,
    /// Octets were read or written.
    Moved,
    /// It is over, or it failed.
    Ended,
}

/// A connection of a client.
pub(crate) struct Connection {
    stream: TcpStream,
    http: http_server::Connection,
    // Since when a request is waited for, or an answer is taken.
    since: u64,
    is_answering: bool,
    /// When octets were last read or written.
    pub(crate) moved: u64,
    /// How many octets the answer has that the client hasn't taken whole; 0 if there is none.
    pub(crate) kept: usize,
}

impl Drop for Connection {
    // What HTTP's part gives up is dropped. A derived `drop` would have that of each type of a request proved anew here.
    fn drop(self) {
        let Connection {
            stream,
            http,
            since: _,
            is_answering: _,
            moved: _,
            kept: _,
        } = self;
        drop(stream);
        let (input, output) = http.into_buffers();
        drop(input);
        drop(output);
    }
}

// No request has a body, and each answer is taken before the next request is read, so that a client makes no more work at a time.
fn config() -> Config {
    let mut config = Config::default();
    config.limits.max_head_len = MAX_HEAD_LEN;
    config.max_body_len = 0;
    config.max_pending = 0;
    config
}

// How long the client may take.
fn patience(is_answering: bool) -> u64 {
    if is_answering { ANSWERING } else { ASKING }
}

impl Connection {
    /// A connection that was accepted now. The client chooses its fields' names, so they are found by keys that it can't know.
    pub(crate) fn new(alloc: Global, keys: RandomState, stream: TcpStream, now: u64) -> Connection {
        Connection {
            stream,
            http: http_server::Connection::new(alloc, keys, config()),
            since: now,
            is_answering: false,
            moved: now,
            kept: 0,
        }
    }

    /// Whether the client has taken too long.
    pub(crate) fn is_late(&self, now: u64) -> bool {
        has_passed(now, self.since, patience(self.is_answering))
    }

    /// How long the client still may take.
    pub(crate) fn left(&self, now: u64) -> u64 {
        left(now, self.since, patience(self.is_answering))
    }

    // Takes note whether an answer is to be taken.
    fn count_anew(&mut self, now: u64) {
        let is_answering = self.http.wants_write();
        if is_answering != self.is_answering {
            self.is_answering = is_answering;
            self.since = now;
        }
    }

    // Answers a request that is whole, once the last answer was taken.
    fn answer(&mut self, pages: &mut Pages<'_>) {
        let before = pages.kept;
        self.http.advance(pages);
        let given = pages.kept.saturating_sub(before);
        self.kept = if self.http.wants_write() {
            self.kept.saturating_add(given)
        } else {
            0
        };
    }

    // Goes on after octets were read or written.
    fn go_on(&mut self, pages: &mut Pages<'_>, now: u64) -> Step {
        self.moved = now;
        self.count_anew(now);
        self.answer(pages);
        self.count_anew(now);
        if self.http.is_done() {
            Step::Ended
        } else {
            Step::Moved
        }
    }

    /// Reads or writes once, and answers a request that is whole.
    pub(crate) fn step(&mut self, pages: &mut Pages<'_>, now: u64) -> Step {
        let is_writing = self.http.wants_write();
        let moved = if is_writing {
            self.http.write_to(&mut self.stream)
        } else {
            self.http.read_from(&mut self.stream)
        };
        match moved {
            Ok(0) if is_writing => Step::Ended,
            Ok(_) => self.go_on(pages, now),
            Err(error) if error.kind() == ErrorKind::WouldBlock => Step::Waits,
            Err(_) => Step::Ended,
        }
    }
}

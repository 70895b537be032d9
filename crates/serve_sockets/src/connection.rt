//! One connection: what it sent, and what of its answer it has taken.
ghost use Rattle.std.specs.{Prelude.{◌≡◌, ◌≤◌, ◌-◌, ◌<◌, [], IfSome, IsTrue, None, Some, length, nat_le, not, ◌&&◌, true, false}, Io.KnownBytes.{Keeps, append_known}};
ghost use Rattle.hall_desk.specs.Octets.{octets_of};
ghost use Rattle.serve_sockets.specs.{Listing.AsksForList, Sent.octets_sent};

use crate::bucket::bucket;
use crate::listing::bearer_of_list;
use crate::reading::{Taken, read};
use crate::sent::{Decided, Sent};
use crate::writing::{Put, write};
use hall_desk::Answer;
use hall_http::{PartialRequest, Request};
use hall_types::Digest;
use std::alloc::Global;
use std::io::{Read, Write};
use std::mem;
use std::net::SocketAddr;

/// How long, in milliseconds of served time, a connection may be undecided, and its answer stand still.
const PATIENCE: u64 = 2_000;

/// For how long, in milliseconds of served time, a list may be open while others wait.
const LIST_PATIENCE: u64 = 60_000;

/// An answer, and how many of its octets are written.
#[derive(Drop)]
pub(crate) struct Sending {
    pub(crate) answer: Answer,
    pub(crate) written: usize,
    ghost within: { written ≤ length (octets_of answer) },
}

/// What a whole request waits for.
#[derive(Clone, Copy, PartialEq, Eq)]
pub(crate) enum Wait {
    /// That its list is called.
    Call,
    /// That it is answered, with others that wait so, by one commit.
    Group,
}

/// A connection over a stream whose calls don't wait.
#[derive(Drop)]
pub(crate) struct Connection<T> {
    stream: T,
    from: SocketAddr,
    number: u64,
    // When it was accepted or answered, or last took something of its answer, in served time.
    since: u64,
    sent: Sent,
    sending: Option<Sending>,
    // What its request waits for.
    waits: Option<Wait>,
    // When its request for a list, which had waited, was called, in served time.
    called: Option<u64>,
    ghost bounded: { length (octets_sent sent) ≤ 24576 },
}

impl<T> Connection<T> {
    ghost use Rattle.serve_sockets.specs.Connection.{input_of, is_answered, is_called, is_put_off, is_slow, is_waiting, is_whole, IsAnsweredBy, number_of, undecided_bucket, since_of, stream_of};

    /// The connection that was accepted as the so-manieth, at a served time.
    pub(crate) fn new(
        alloc: Global,
        stream: T,
        from: SocketAddr,
        number: u64,
        now: u64,
    ) -> Connection<T>
        ensures stream { stream_of result ≡ stream }
        ensures number { number_of result ≡ number }
        ensures since { since_of result ≡ now }
        ensures input { input_of result ≡ [] }
        ensures open { ¬ (IsTrue (is_answered result)) }
    {
        Connection {
            stream,
            from,
            number,
            since: now,
            sent: Sent::Partial(PartialRequest::new(alloc)),
            sending: None,
            waits: None,
            called: None,
        }
    }

    pub(crate) fn stream(&self) -> &T
        ensures { result.now ≡ stream_of self.now }
    {
        &self.stream
    }

    /// Where the client is.
    pub(crate) fn from(&self) -> SocketAddr {
        self.from
    }

    pub(crate) fn number(&self) -> u64
        ensures { result ≡ number_of self.now }
    {
        self.number
    }

    /// Whether it was undecided, or its answer stood still, for two seconds of served time, and its request doesn't wait.
    pub(crate) fn is_late(&self, now: u64) -> bool
        ensures { result ≡ not (is_waiting self.now) && nat_le 2000 (now - since_of self.now) }
    {
        !self.is_waiting() && now.saturating_sub(self.since) >= PATIENCE
    }

    /// Whether its request waits.
    pub(crate) fn is_waiting(&self) -> bool
        ensures { result ≡ is_waiting self.now }
    {
        self.waits.is_some()
    }

    /// Whether its request asks for a list, and waits until that is called.
    pub(crate) fn is_put_off(&self) -> bool
        ensures { result ≡ is_put_off self.now }
    {
        matches!(self.waits, Some(Wait::Call))
    }

    /// Whether its request waits to be answered with others.
    pub(crate) fn is_whole(&self) -> bool
        ensures { result ≡ is_whole self.now }
    {
        matches!(self.waits, Some(Wait::Group))
    }

    /// Whether its request for a list was called: the list is open until the client has taken it.
    pub(crate) fn is_called(&self) -> bool
        ensures { result ≡ is_called self.now }
    {
        self.called.is_some()
    }

    /// Whether its list was called longer than a minute of served time ago.
    pub(crate) fn is_slow(&self, now: u64) -> bool
        ensures { result ≡ is_slow now self.now }
    {
        match self.called {
            Some(called) => now.saturating_sub(called) > LIST_PATIENCE,
            None => false,
        }
    }

    /// What of its request was read.
    pub(crate) fn input(&self) -> &[u8]
        ensures { result.now ≡ input_of self.now }
    {
        self.sent.octets()
    }

    /// Its request, if that is whole.
    pub(crate) fn request(&self) -> Option<&Request>
        ensures { IfSome result (λ request. request.now ≡ input_of self.now) }
    {
        self.sent.request()
    }

    /// Its request once more, if that is whole and there is memory for it.
    pub(crate) fn shared_request(&self) -> Option<Request>
        ensures { IfSome result (λ request. request ≡ input_of self.now) }
    {
        self.request()?.share().ok()
    }

    /// The digest of the token with which its request asks for all machines or all orders, if it does.
    pub(crate) fn list_bearer(&self) -> Option<Digest>
        ensures { IfSome result (AsksForList (input_of self.now)) }
    {
        bearer_of_list(self.request()?)
    }

    /// Has its request wait.
    pub(crate) fn wait(&mut self, what: Wait)
        ensures { self.new ≡ record self.old { waits = Some what } }
    {
        self.waits = Some(what);
    }

    /// Its request waits no more, from this served time on.
    pub(crate) fn call(&mut self, now: u64)
        ensures { self.new ≡ record self.old { waits = None; called = Some now } }
    {
        self.waits = None;
        self.called = Some(now);
    }

    pub(crate) fn is_answered(&self) -> bool
        ensures { result ≡ is_answered self.now }
    {
        self.sending.is_some()
    }

    /// The bucket of the client's address, if the connection has no answer and its request doesn't wait.
    pub(crate) fn undecided_bucket(&self) -> Option<usize>
        ensures bucket { result ≡ undecided_bucket self.now }
        ensures within { IfSome result (λ bucket. bucket < 1024) }
    {
        if self.sending.is_none() && !self.is_waiting() {
            Some(bucket(&self.from))
        } else {
            None
        }
    }

    /// Has an answer to its request wait until the client takes it.
    pub(crate) fn answer(&mut self, answer: Answer, now: u64)
        ensures answered { IsAnsweredBy self.old self.new answer }
        ensures waits { is_waiting self.new ≡ false }
        ensures since { since_of self.new ≡ now }
    {
        self.sending = Some(Sending { answer, written: 0 });
        self.waits = None;
        self.since = now;
    }
}

impl<T: Read> Connection<T> {
    ghost use Rattle.serve_sockets.specs.Connection.{IsDecidedIf, IsFinished, IsTaken, answer_of, input_of, number_of, since_of, stream_of};

    // What came is a request that is decided, or all that the client sends: it is made into that, once.
    fn finish(&mut self, alloc: Global, taken: Taken) -> Taken
        requires { IsDecidedIf taken (input_of self.old) }
        ensures finished { IsFinished taken result (input_of self.old) (input_of self.new) }
        ensures stream { stream_of self.new ≡ stream_of self.old }
        ensures since { since_of self.new ≡ since_of self.old }
        ensures number { number_of self.new ≡ number_of self.old }
        ensures answer { answer_of self.new ≡ answer_of self.old }
    {
        let empty = Sent::Partial(PartialRequest::new(alloc));
        let Sent::Partial(partial) = mem::replace(&mut self.sent, empty) else {
            return Taken::Failed;
        };
        let Ok(request) = partial.finish(alloc) else {
            return Taken::NoMemory;
        };
        self.sent = match taken {
            Taken::Whole => Sent::Decided(Decided::new(request)),
            _ => Sent::Ended(request),
        };
        taken
    }

    /// Reads once, unless the request is decided. The time that the connection has isn't prolonged.
    pub(crate) fn take(&mut self, alloc: Global, buffer: &mut [u8]) -> Taken
        ensures taken { IsTaken result (T.remaining (stream_of self.old)) (T.remaining (stream_of self.new)) (input_of self.old) (input_of self.new) }
        ensures since { since_of self.new ≡ since_of self.old }
        ensures number { number_of self.new ≡ number_of self.old }
        ensures answer { answer_of self.new ≡ answer_of self.old }
    {
        let taken = match &mut self.sent {
            Sent::Partial(partial) => read(&mut self.stream, alloc, partial, buffer),
            Sent::Decided(decided) => {
                let _ = decided.request();
                return Taken::Whole;
            }
            Sent::Ended(_) => return Taken::Failed,
        };
        match taken {
            Taken::Whole | Taken::Ended => self.finish(alloc, taken),
            _ => taken,
        }
    }
}

impl<T: Write> Connection<T> {
    ghost use Rattle.serve_sockets.specs.Connection.{IsPut, answer_of, input_of, left_of, number_of, since_of, stream_of};

    /// Writes once. What the client takes of the answer prolongs the connection's time.
    pub(crate) fn put(&mut self, now: u64) -> Put
        ensures octets { Keeps (append_known (T.contents (stream_of self.old)) (left_of self.old)) (append_known (T.contents (stream_of self.new)) (left_of self.new)) }
        ensures put { IsPut now result (since_of self.old) (since_of self.new) (left_of self.new) }
        ensures answer { answer_of self.new ≡ answer_of self.old }
        ensures input { input_of self.new ≡ input_of self.old }
        ensures number { number_of self.new ≡ number_of self.old }
    {
        match &mut self.sending {
            Some(sending) => write(&mut self.stream, sending, &mut self.since, now),
            None => Put::Waits,
        }
    }
}

//! What a turn did, and what one needs.
ghost use Rattle.std.specs.Prelude.{◌≡◌, true};
ghost use Rattle.serve_sockets.specs.Turn.{HandsNothing};

use hall_desk::{Account, Answer, Stamp, What};
use hall_types::{Moment, Port};
use std::net::SocketAddr;

/// What a turn needs from outside.
#[derive(Clone, Copy)]
pub struct Tick {
    /// The stamp of what is handed to the desk.
    pub stamp: Stamp,
    /// Milliseconds on a clock that never goes back, for the time that a connection has. Between two turns 100 count at most.
    pub millis: u64,
}

/// Where ticks come from: clocks, and a source of random octets.
pub trait Source {
    ghost use Rattle.std.specs.Prelude.{⊤, Option, None};
    ghost use Rattle.serve_sockets.specs.declared.turn.Tick.{Tick};

    // Holds of the source before a call, of the tick that the call gave, if it gave one, and of the source after it.
    ghost may_give: { Self → Option Tick → Self → Type 0 } = { λ _ _ _. ⊤ };

    /// The tick of the next turn, or of a request that is handed over with others, and nothing where a clock or the random octets failed.
    fn tick(&mut self) -> Option<Tick>
        ensures { may_give self.old result self.new };

    /// For how many milliseconds at most a turn waits where nothing is known to be there.
    fn pause(&mut self) -> u64
        ensures { may_give self.old None self.new };
}

/// What was handed to the desk.
#[derive(Clone, Copy, PartialEq, Eq)]
pub enum Kind {
    Datagram(Port),
    Request,
    Quiet,
}

/// What the desk answered.
#[derive(Clone, Copy, PartialEq, Eq)]
pub enum Said {
    Silence,
    Unavailable,
    /// A reply's frame.
    Frame { len: usize },
    /// A response by HTTP, with its status code (RFC 9110 section 15).
    Response { status: u16, len: usize },
}

/// An arrival, for a log. It has no token and no key.
#[derive(Clone, Copy)]
pub struct Handover {
    pub kind: Kind,
    /// Where it came from. A quiet moment comes from nowhere.
    pub from: Option<SocketAddr>,
    /// How many octets came.
    pub len: usize,
    pub said: Said,
}

/// Why a connection was closed.
#[derive(Clone, Copy)]
pub enum Close {
    /// The client has taken all of its answer.
    Answered,
    /// It was asked and gave nothing: the request was undecided, or the answer stood still, for two seconds of the service's time. Or
    /// its list was called longer than a minute ago, and others wait.
    Late,
    /// A read or a write failed.
    Failed,
    /// It went for another one, for which the system had no descriptor.
    Crowded,
}

/// What a turn did.
#[derive(Clone, Copy)]
pub enum Turn {
    /// Something came and was handed to the desk.
    Handed(Handover),
    /// So too, and the answer to a datagram couldn't be sent.
    Unsent(Handover),
    /// A connection was accepted, and another one closed for it if there was no place.
    Accepted {
        from: SocketAddr,
        instead_of: Option<SocketAddr>,
    },
    /// A connection gave octets of its request, or took some of its answer.
    Moved(SocketAddr),
    /// A connection's request asks for a list, and waits. The hall was only read.
    PutOff(SocketAddr),
    /// A connection's request is decided, and waits to be answered with others.
    Decided(SocketAddr),
    /// A connection was closed.
    Closed {
        from: SocketAddr,
        cause: Close,
    },
    /// A seat that might have had something had nothing.
    Nothing,
    /// A datagram couldn't be received, or a connection not be accepted. It is tried again at a quiet turn.
    Failed,
}

impl Turn {
    /// Whether a request was decided.
    pub(crate) fn is_decided(&self) -> bool
        ensures { result ≡ true → HandsNothing self.now }
    {
        matches!(self, Turn::Decided(_))
    }

    /// Whether it handed something over that counts as not having come.
    pub(crate) fn is_refused(&self) -> bool {
        match self {
            Turn::Handed(handover) | Turn::Unsent(handover) => handover.said == Said::Unavailable,
            _ => false,
        }
    }

    /// Whether it was a quiet moment for which the store was unavailable, as it is for each after a fault has shut it.
    pub(crate) fn finds_shut(&self) -> bool {
        match self {
            Turn::Handed(handover) => {
                handover.kind == Kind::Quiet && handover.said == Said::Unavailable
            }
            _ => false,
        }
    }
}

/// What the turns of a service are told to.
pub trait TurnLog {
    /// What was handed to the desk, its answer, and its account of what it did; nothing is kept of it. The turn that they belong to
    /// is noted next. The octets of a request, and its event, have its token and its key, which no log may keep.
    fn arrived(&mut self, _what: What<'_>, _answer: &Answer, _account: &Account) {}

    /// What a turn did, at the moment of its stamp.
    fn note(&mut self, moment: Moment, turn: &Turn);

    /// The source gives no ticks from now on, so that nothing is done, until a turn is noted again.
    fn unstamped(&mut self) {}
}

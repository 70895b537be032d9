//! One try after another to have the desk's answer.
ghost use Rattle.std.specs.Prelude.{◌≡◌};
ghost use Rattle.hallctl_tasks.specs.Try.{came_of};

use std::alloc::Global;
use thiserror::Error;

/// Why a try had no answer.
#[derive(Clone, Copy, Debug, PartialEq, Eq, Error)]
pub enum Why {
    /// The desk's name has no address.
    #[error("the name has no address")]
    NoAddress,
    /// Nothing takes connections there.
    #[error("connection refused")]
    Refused,
    /// There is no way there.
    #[error("the desk can't be reached")]
    Unreachable,
    /// The time of a try was over.
    #[error("no answer in time")]
    Late,
    /// The connection was closed without an answer, or broke.
    #[error("the connection was closed")]
    Closed,
    /// The connection was closed amid the answer.
    #[error("the answer was cut")]
    Cut,
    /// The answer was 502 Bad Gateway, of something between (RFC 9110 section 15.6.3).
    #[error("502 Bad Gateway")]
    BadGateway,
    /// The answer was 503 Unavailable (RFC 9110 section 15.6.4).
    #[error("503 Unavailable")]
    Unavailable,
    /// The answer was 504 Gateway Timeout, of something between (RFC 9110 section 15.6.5).
    #[error("504 Gateway Timeout")]
    GatewayTimeout,
    /// There was no memory for the answer.
    #[error("no memory for the answer")]
    Memory,
}

/// What comes of one try.
#[derive(Drop)]
pub enum Attempt {
    /// All octets that came until the connection was closed, or the time of the try was over; one at least.
    Answer(Vec<u8>),
    /// More octets than an answer may have.
    TooLong,
    /// Nothing came back.
    Nothing(Why),
    /// There was no connection, so nothing was sent.
    Unsent(Why),
}

/// A way to the desk, over which a request is tried.
pub trait Dial {
    ghost use Rattle.std.specs.Prelude.{List, Option};
    ghost use Rattle.hallctl_tasks.specs.Try.{Try, adds};

    /// What was sent in each try so far and what came, where the type says it.
    ghost tries: { Self → Option (List Try) };

    /// One try: connects, sends all octets, and reads until the connection is closed. It ends where nothing has come after so many
    /// milliseconds; what has begun to come is read on.
    fn attempt(&mut self, alloc: Global, octets: &[u8], milliseconds: u64) -> Attempt
        ensures tried { tries self.new ≡ adds (tries self.old) (record { sent = octets.now; came = came_of result }) };

    /// Takes note that the first try was in vain, and that there are more of them for so many milliseconds in all.
    fn goes_on(&mut self, alloc: Global, why: Why, milliseconds: u64)
        ensures same { tries self.new ≡ tries self.old };

    /// Waits for so many milliseconds.
    fn pause(&mut self, milliseconds: u64)
        ensures same { tries self.new ≡ tries self.old };

    /// How many milliseconds have passed since some moment before the first try; the maximum where the clock fails.
    fn passed(&mut self) -> u64
        ensures same { tries self.new ≡ tries self.old };
}

//! What comes to the desk, and what it answers, in octets.
use hall_http::{Request, UNAVAILABLE};
use hall_types::{Moment, Port, Token};
use pxe_vendor::Octets;

/// What comes: a datagram to one of the DHCP ports, a request by HTTP, or a moment in which nothing else came.
#[derive(Drop)]
pub enum Input {
    Datagram { port: Port, octets: Octets },
    Request(Request),
    Quiet,
}

impl Input {
    /// What a log tells of it.
    pub fn what(&self) -> What<'_> {
        match self {
            Input::Datagram { port, .. } => What::Datagram(*port),
            Input::Request(request) => What::Request(request),
            Input::Quiet => What::Quiet,
        }
    }
}

/// What came, as far as a log tells of it: at which port a datagram came, or a request.
#[derive(Clone, Copy)]
pub enum What<'a> {
    Datagram(Port),
    Request(&'a Request),
    Quiet,
}

/// When something comes, and 16 fresh octets, which become the token of a boot that is issued.
#[derive(Clone, Copy)]
pub struct Stamp {
    pub moment: Moment,
    pub fresh: Token,
}

/// What comes, and its stamp.
#[derive(Drop)]
pub struct Arrival {
    pub moment: Moment,
    pub fresh: Token,
    pub input: Input,
}

/// What the desk answers.
#[derive(Drop)]
pub enum Answer {
    /// The octets of a datagram.
    Frame(Octets),
    /// A response by HTTP: its status code (RFC 9110 section 15), and all of its octets.
    Response { status: u16, octets: Octets },
    /// The arrival counts as not having come: memory or the store failed.
    Unavailable,
    Silence,
}

impl Answer {
    ghost use Rattle.std.specs.Prelude.{◌≡◌};
    ghost use Rattle.hall_desk.specs.Octets.{octets_of};

    /// The octets that are sent: the response `503 Service Unavailable` (RFC 9110 section 15.6.4) for
    /// `Unavailable`, and none for `Silence`.
    pub fn octets(&self) -> &[u8]
        ensures { result.now ≡ octets_of self.now }
    {
        match self {
            Answer::Frame(octets) | Answer::Response { octets, .. } => octets.as_slice(),
            Answer::Unavailable => UNAVAILABLE,
            Answer::Silence => &[],
        }
    }
}

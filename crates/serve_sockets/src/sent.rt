//! What a client sent.
ghost use Rattle.std.specs.Prelude.{◌≡◌, IfSome};

use hall_http::{PartialRequest, Request};
use std::marker::Model;

/// A request that is decided: no further octets can change what it asks for. Contracts see its octets.
#[derive(Drop)]
pub(crate) struct Decided {
    request: Request,
}

impl Model for Decided {
    ghost use Rattle.std.specs.Prelude.{List, ℕ};
    ghost use Rattle.hall_http.specs.Decided.{IsDecided};

    ghost Value = { List ℕ };

    ghost view = { λ decided. decided.request };

    ghost invariant = { λ decided. IsDecided decided.request };
}

impl Decided {
    ghost use Rattle.hall_http.specs.Decided.{IsDecided};

    pub(crate) fn new(request: Request) -> Decided
        requires { IsDecided request }
        ensures { result ≡ request }
    {
        Decided { request }
    }

    pub(crate) fn request(&self) -> &Request
        ensures value { result.now ≡ self.now }
        ensures decided { IsDecided self.now }
    {
        &self.request
    }
}

/// What a client sent.
#[derive(Drop)]
pub(crate) enum Sent {
    /// So much came, and it doesn't decide a request.
    Partial(PartialRequest),
    Decided(Decided),
    /// All that the client sends, which doesn't decide a request.
    Ended(Request),
}

impl Sent {
    ghost use Rattle.serve_sockets.specs.Sent.{octets_sent};

    pub(crate) fn octets(&self) -> &[u8]
        ensures { result.now ≡ octets_sent self.now }
    {
        match self {
            Sent::Partial(partial) => partial.octets(),
            Sent::Decided(decided) => decided.request().octets(),
            Sent::Ended(request) => request.octets(),
        }
    }

    /// The request, if it is whole.
    pub(crate) fn request(&self) -> Option<&Request>
        ensures { IfSome result (λ request. request.now ≡ octets_sent self.now) }
    {
        match self {
            Sent::Partial(_) => None,
            Sent::Decided(decided) => Some(decided.request()),
            Sent::Ended(request) => Some(request),
        }
    }
}

//! Keys of requests.
ghost use Rattle.std.specs.Prelude.{◌≡◌};
ghost use Rattle.hall_types.specs.Octets.{AreOctets};

use std::marker::Model;

/// The key that an operator gives a request, so that it is carried out at most once: the 16 octets of
/// a UUID. Contracts see the octets.
#[derive(Clone, Copy)]
pub struct RequestKey {
    octets: [u8; 16],
}

impl Model for RequestKey {
    ghost use Rattle.std.specs.Prelude.{List, ℕ};

    ghost Value = { List ℕ };

    ghost view = { λ request_key. request_key.octets };

    ghost inverse = { λ octets. record { octets = octets } };
}

impl From<[u8; 16]> for RequestKey {
    ghost from_gives = { λ octets request_key. request_key ≡ octets };

    fn from(octets: [u8; 16]) -> RequestKey {
        RequestKey { octets }
    }
}

impl RequestKey {
    pub fn octets(self) -> [u8; 16]
        ensures octets { result ≡ self }
        ensures range { AreOctets 16 self }
    {
        self.octets
    }
}

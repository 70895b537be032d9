//! Digests of bearer tokens.
ghost use Rattle.std.specs.Prelude.{◌≡◌};
ghost use Rattle.hall_types.specs.Octets.{AreOctets};

use hex::{FromHex, FromHexError};
use std::marker::Model;
use std::str::FromStr;

/// The SHA-256 of an operator's bearer token, 32 octets. Contracts see the octets.
#[derive(Clone, Copy, PartialEq, Eq)]
pub struct Digest {
    octets: [u8; 32],
}

impl Model for Digest {
    ghost use Rattle.std.specs.Prelude.{List, ℕ};

    ghost Value = { List ℕ };

    ghost view = { λ digest. digest.octets };

    ghost inverse = { λ octets. record { octets = octets } };
}

impl From<[u8; 32]> for Digest {
    ghost from_gives = { λ octets digest. digest ≡ octets };

    fn from(octets: [u8; 32]) -> Digest {
        Digest { octets }
    }
}

impl Digest {
    pub fn octets(self) -> [u8; 32]
        ensures octets { result ≡ self }
        ensures range { AreOctets 32 self }
    {
        self.octets
    }
}

/// A digest is read from 64 hexadecimal digits in either case.
impl FromStr for Digest {
    type Err = FromHexError;

    ghost use Rattle.std.specs.Result.{result_ok};
    ghost use Rattle.hall_types.specs.Octets.{octets_of_text};

    ghost from_str_gives = { λ text result. result_ok result ≡ octets_of_text 32 text };

    fn from_str(text: &str) -> Result<Self, FromHexError> {
        let octets = <[u8; 32] as FromHex>::from_hex(text)?;
        Ok(Digest { octets })
    }
}

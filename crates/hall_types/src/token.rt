//! Tokens of boots.
ghost use Rattle.std.specs.Prelude.{◌≡◌};
ghost use Rattle.hall_types.specs.Octets.{AreOctets};

use hex::{FromHex, FromHexError};
use std::marker::Model;
use std::str::FromStr;

/// What a report of a boot has to name, 16 octets. Contracts see the octets.
#[derive(Clone, Copy, PartialEq, Eq)]
pub struct Token {
    octets: [u8; 16],
}

impl Model for Token {
    ghost use Rattle.std.specs.Prelude.{List, ℕ};

    ghost Value = { List ℕ };

    ghost view = { λ token. token.octets };

    ghost inverse = { λ octets. record { octets = octets } };
}

impl From<[u8; 16]> for Token {
    ghost from_gives = { λ octets token. token ≡ octets };

    fn from(octets: [u8; 16]) -> Token {
        Token { octets }
    }
}

impl Token {
    pub fn octets(self) -> [u8; 16]
        ensures octets { result ≡ self }
        ensures range { AreOctets 16 self }
    {
        self.octets
    }
}

/// A token is read from 32 hexadecimal digits in either case.
impl FromStr for Token {
    type Err = FromHexError;

    ghost use Rattle.std.specs.Result.{result_ok};
    ghost use Rattle.hall_types.specs.Octets.{octets_of_text};

    ghost from_str_gives = { λ text result. result_ok result ≡ octets_of_text 16 text };

    fn from_str(text: &str) -> Result<Self, FromHexError> {
        let octets = <[u8; 16] as FromHex>::from_hex(text)?;
        Ok(Token { octets })
    }
}

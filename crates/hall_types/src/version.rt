//! Versions of machines.
ghost use Rattle.std.specs.{Prelude.{◌≡◌, ◌↔◌, IfOk, IsErr}, Result.result_ok};
ghost use Rattle.hall_types.specs.Number.{IsNumber, next_number, next_version, number_in};

use crate::number::{BadNumber, MAX_NUMBER};
use pxe_vendor::numeral;
use std::marker::Model;
use std::str::FromStr;

/// The version of a machine's row: 1 to 10^15. Contracts see the number.
#[derive(Clone, Copy, PartialEq, Eq)]
pub struct Version {
    number: u64,
}

impl Model for Version {
    ghost use Rattle.std.specs.Prelude.{ℕ};
    ghost use Rattle.hall_types.specs.Number.{IsNumber};

    ghost Value = { ℕ };

    ghost view = { λ version. version.number };

    ghost invariant = { λ version. IsNumber version.number };

    ghost inverse = { λ n. record { number = n } };
}

impl Version {
    /// The version of a new machine.
    pub const FIRST: Version = Version { number: 1 };

    pub fn new(number: u64) -> Result<Version, BadNumber>
        ensures version { IfOk result (λ version. version ≡ number) }
        ensures bad { IsErr result ↔ ¬ (IsNumber number) }
        ensures option { result_ok result ≡ number_in number }
    {
        if number == 0 || number > MAX_NUMBER {
            return Err(BadNumber);
        }
        Ok(Version { number })
    }

    pub fn get(self) -> u64
        ensures number { result ≡ self }
        ensures range { IsNumber self }
    {
        self.number
    }

    /// The version after this one, none after the last.
    pub fn next(self) -> Option<Version>
        ensures { result ≡ next_number self }
    {
        if self.number == MAX_NUMBER {
            return None;
        }
        Some(Version {
            number: self.number + 1,
        })
    }

    /// The version after a change of the row: one more, or the last one again.
    pub fn raised(self) -> Version
        ensures { result ≡ next_version self }
    {
        self.next().unwrap_or(self)
    }
}

/// A version is read from decimal digits without a leading zero.
impl FromStr for Version {
    type Err = BadNumber;

    ghost use Rattle.hall_types.specs.Number.{number_of_text};

    ghost from_str_gives = { λ text result. result_ok result ≡ number_of_text text };

    fn from_str(text: &str) -> Result<Self, BadNumber> {
        let number = numeral(text.as_bytes()).ok_or(BadNumber)?;
        Version::new(number)
    }
}

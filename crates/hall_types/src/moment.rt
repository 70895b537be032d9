//! Moments.
ghost use Rattle.std.specs.{Prelude.{◌≡◌, ◌≤◌, ◌<◌, ◌↔◌, IfOk, IsErr}, Result.result_ok};
ghost use Rattle.hall_types.specs.Number.{moment_in};

use pxe_vendor::numeral;
use std::marker::Model;
use std::str::FromStr;
use thiserror::Error;

/// The last moment, in seconds since 1970-01-01 00:00:00 UTC.
pub const MAX_MOMENT: u64 = 1_000_000_000_000;

/// A moment in seconds since 1970-01-01 00:00:00 UTC, at most 10^12. Contracts see the number.
#[derive(Clone, Copy, PartialEq, Eq, PartialOrd, Ord)]
pub struct Moment {
    seconds: u64,
}

impl Model for Moment {
    ghost use Rattle.std.specs.Prelude.{ℕ, ◌≤◌};

    ghost Value = { ℕ };

    ghost view = { λ moment. moment.seconds };

    ghost invariant = { λ moment. moment.seconds ≤ 1000000000000 };

    ghost inverse = { λ n. record { seconds = n } };
}

/// The number of seconds is after the last moment.
#[derive(Clone, Copy, Debug, PartialEq, Eq, Error)]
#[error("a moment is at most 1000000000000 seconds")]
pub struct BadMoment;

impl Moment {
    pub fn new(seconds: u64) -> Result<Moment, BadMoment>
        ensures moment { IfOk result (λ moment. moment ≡ seconds) }
        ensures bad { IsErr result ↔ (MAX_MOMENT < seconds) }
        ensures option { result_ok result ≡ moment_in seconds }
    {
        if seconds > MAX_MOMENT {
            return Err(BadMoment);
        }
        Ok(Moment { seconds })
    }

    /// The seconds.
    pub fn get(self) -> u64
        ensures seconds { result ≡ self }
        ensures range { self ≤ MAX_MOMENT }
    {
        self.seconds
    }
}

/// A moment is read from decimal digits without a leading zero.
impl FromStr for Moment {
    type Err = BadMoment;

    ghost use Rattle.hall_types.specs.Number.{moment_of_text};

    ghost from_str_gives = { λ text result. result_ok result ≡ moment_of_text text };

    fn from_str(text: &str) -> Result<Self, BadMoment> {
        let seconds = numeral(text.as_bytes()).ok_or(BadMoment)?;
        Moment::new(seconds)
    }
}

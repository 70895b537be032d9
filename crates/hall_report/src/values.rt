//! The values of an operator's words: counts, what a report is about, how a log is written.
ghost use Rattle.std.specs.{Prelude.◌≡◌, Result.result_ok};
ghost use Rattle.hall_report.specs.Values.{count_of_text, what_of_text};

use pxe_vendor::numeral;
use std::str::FromStr;
use thiserror::Error;

/// What a report is about.
#[derive(Clone, Copy, PartialEq, Eq)]
pub enum What {
    /// How many machines each pool has in each status.
    Hall,
    /// The power orders that wait.
    Orders,
    /// The machine with this number. No machine has 0.
    Machine(u64),
}

/// The text isn't `hall`, `orders` or a number.
#[derive(Clone, Copy, Debug, PartialEq, Eq, Error)]
#[error("a report is about hall, orders or the number of a machine")]
pub struct BadWhat;

/// How a log is written.
#[derive(Clone, Copy, PartialEq, Eq)]
pub enum LogFormat {
    /// A text a line, with moments in seconds since 1970.
    Seconds,
    /// A text a line, with the time in UTC (RFC 3339 section 5.6), until the 30th of December 9999; seconds afterwards.
    Utc,
    /// An object of JSON a line (RFC 8259), with the time likewise.
    Json,
}

/// The highest count of turns and number of a machine.
const MAX_COUNT: u64 = 1_000_000_000_000_000;

/// A count in decimal digits without a leading zero, at most 10^15.
pub fn count_of(text: &str) -> Option<u64>
    ensures { result ≡ count_of_text text.now }
{
    let count = numeral(text.as_bytes())?;
    (count <= MAX_COUNT).then_some(count)
}

impl FromStr for What {
    type Err = BadWhat;

    ghost from_str_gives = { λ text result. result_ok result ≡ what_of_text text };

    fn from_str(text: &str) -> Result<Self, BadWhat> {
        match text {
            "hall" => Ok(What::Hall),
            "orders" => Ok(What::Orders),
            _ => count_of(text).map(What::Machine).ok_or(BadWhat),
        }
    }
}

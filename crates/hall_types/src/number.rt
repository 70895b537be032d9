//! Numbers of machines, boots and orders.
ghost use Rattle.std.specs.{Prelude.{◌≡◌, ◌≤◌, ◌↔◌, IfOk, IsErr, IsOk}, Result.result_ok};
ghost use Rattle.hall_types.specs.Number.{IsNumber, max_number, next_number, number_in};

use pxe_vendor::numeral;
use std::marker::Model;
use std::str::FromStr;
use thiserror::Error;

/// The highest number of a machine, a boot or an order, and the highest version.
pub const MAX_NUMBER: u64 = 1_000_000_000_000_000;

/// A number of a machine, a boot or an order: 1 to 10^15. Contracts see the number.
#[derive(Clone, Copy, PartialEq, Eq, PartialOrd, Ord)]
pub struct Number {
    number: u64,
}

impl Model for Number {
    ghost use Rattle.std.specs.Prelude.{ℕ};
    ghost use Rattle.hall_types.specs.Number.{IsNumber};

    ghost Value = { ℕ };

    ghost view = { λ number. number.number };

    ghost invariant = { λ number. IsNumber number.number };

    ghost inverse = { λ n. record { number = n } };
}

/// The number is outside its range.
#[derive(Clone, Copy, Debug, PartialEq, Eq, Error)]
#[error("a number is 1 to 1000000000000000")]
pub struct BadNumber;

// The number after this one, none after the last.
fn after(number: u64) -> Option<Number>
    requires { number ≤ max_number }
    ensures { result ≡ next_number number }
{
    if number == MAX_NUMBER {
        return None;
    }
    Some(Number { number: number + 1 })
}

impl Number {
    /// The first number.
    pub const FIRST: Number = Number { number: 1 };

    pub fn new(number: u64) -> Result<Number, BadNumber>
        ensures number { IfOk result (λ made. made ≡ number) }
        ensures bad { IsErr result ↔ ¬ (IsNumber number) }
        ensures option { result_ok result ≡ number_in number }
    {
        if number == 0 || number > MAX_NUMBER {
            return Err(BadNumber);
        }
        Ok(Number { number })
    }

    pub fn get(self) -> u64
        ensures number { result ≡ self }
        ensures range { IsNumber self }
    {
        self.number
    }

    /// The number after this one, none after the last.
    pub fn next(self) -> Option<Number>
        ensures { result ≡ next_number self }
    {
        after(self.number)
    }
}

/// A number is read from decimal digits without a leading zero.
impl FromStr for Number {
    type Err = BadNumber;

    ghost use Rattle.hall_types.specs.Number.{number_of_text};

    ghost from_str_gives = { λ text result. result_ok result ≡ number_of_text text };

    fn from_str(text: &str) -> Result<Self, BadNumber> {
        let number = numeral(text.as_bytes()).ok_or(BadNumber)?;
        Number::new(number)
    }
}

/// The last number that was issued, 0 if none was: 0 to 10^15. Contracts see the number.
#[derive(Clone, Copy, PartialEq, Eq)]
pub struct LastIssued {
    number: u64,
}

impl Model for LastIssued {
    ghost use Rattle.std.specs.Prelude.{ℕ, ◌≤◌};
    ghost use Rattle.hall_types.specs.Number.{max_number};

    ghost Value = { ℕ };

    ghost view = { λ last. last.number };

    ghost invariant = { λ last. last.number ≤ max_number };

    ghost inverse = { λ n. record { number = n } };
}

impl LastIssued {
    /// No number was issued.
    pub const NONE: LastIssued = LastIssued { number: 0 };

    pub fn new(number: u64) -> Result<LastIssued, BadNumber>
        ensures number { IfOk result (λ made. made ≡ number) }
        ensures good { IsOk result ↔ (number ≤ max_number) }
    {
        if number > MAX_NUMBER {
            return Err(BadNumber);
        }
        Ok(LastIssued { number })
    }

    pub fn get(self) -> u64
        ensures number { result ≡ self }
        ensures range { self ≤ max_number }
    {
        self.number
    }

    /// The number to issue next, none if all were issued.
    pub fn next(self) -> Option<Number>
        ensures { result ≡ next_number self }
    {
        after(self.number)
    }
}

impl From<Number> for LastIssued {
    ghost from_gives = { λ number last. last ≡ number };

    fn from(number: Number) -> LastIssued {
        LastIssued {
            number: number.get(),
        }
    }
}

/// The last numbers that were issued.
#[derive(Clone, Copy, PartialEq, Eq)]
pub struct Numbers {
    pub machine: LastIssued,
    pub boot: LastIssued,
    pub order: LastIssued,
}

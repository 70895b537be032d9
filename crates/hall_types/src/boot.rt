//! Boots.
ghost use Rattle.std.specs.Prelude.{◌≡◌, ◌≤◌, ◌+◌, ◌==◌, ◌↔◌, None, Some, if◌then◌else◌, IfOk, IsOk};

use crate::kinds::{Purpose, Stage};
use crate::number::Number;
use crate::token::Token;
use std::marker::Model;
use thiserror::Error;

/// A boot that a script issued to a machine.
#[derive(Clone, Copy, PartialEq, Eq)]
pub struct Boot {
    pub number: Number,
    pub machine: Number,
    pub purpose: Purpose,
    /// What a report of this boot has to name.
    pub token: Token,
    pub stage: Stage,
}

/// The maximum of boots that a machine is issued in one status, Rescue mode apart.
pub const MAX_BOOTS: u8 = 3;

/// A count of boots, 0 to 3. Contracts see the number.
#[derive(Clone, Copy, PartialEq, Eq)]
pub struct BootCount {
    count: u8,
}

impl Model for BootCount {
    ghost use Rattle.std.specs.Prelude.{ℕ, ◌≤◌};

    ghost Value = { ℕ };

    ghost view = { λ boots. boots.count };

    ghost invariant = { λ boots. boots.count ≤ 3 };

    ghost inverse = { λ n. record { count = n } };
}

/// The count is over its maximum.
#[derive(Clone, Copy, Debug, PartialEq, Eq, Error)]
#[error("a count of boots is at most 3")]
pub struct BadBootCount;

impl BootCount {
    /// No boot.
    pub const NONE: BootCount = BootCount { count: 0 };

    pub fn new(count: u8) -> Result<BootCount, BadBootCount>
        ensures count { IfOk result (λ boots. boots ≡ count) }
        ensures good { IsOk result ↔ (count ≤ 3) }
    {
        if count > MAX_BOOTS {
            return Err(BadBootCount);
        }
        Ok(BootCount { count })
    }

    pub fn get(self) -> u8
        ensures count { result ≡ self }
        ensures range { self ≤ 3 }
    {
        self.count
    }

    /// The count after one more boot, none after the maximum.
    pub fn next(self) -> Option<BootCount>
        ensures { result ≡ (if self == 3 then None else Some (self + 1)) }
    {
        if self.count == MAX_BOOTS {
            return None;
        }
        Some(BootCount {
            count: self.count + 1,
        })
    }
}

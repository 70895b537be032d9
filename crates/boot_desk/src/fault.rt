//! How decisions end.
ghost use Rattle.std.specs.Prelude.{◌≡◌};

use hall_types::Refusal;
use std::alloc::AllocError;
use thiserror::Error;

/// Why there is no decision.
#[derive(Clone, Copy, Debug, Error)]
pub enum DeskFault {
    #[error("refused")]
    Refused(Refusal),
    #[error("out of memory")]
    Memory,
}

impl From<AllocError> for DeskFault {
    ghost use Rattle.boot_desk.specs.declared.fault.DeskFault.TheVariants.{Memory};

    ghost from_gives = { λ _ fault. fault ≡ Memory };

    fn from(_: AllocError) -> DeskFault {
        DeskFault::Memory
    }
}

/// What a report or the answer to an order was.
#[derive(Clone, Copy)]
pub enum Verdict {
    /// It counts: the boot or the order has taken it.
    Counted,
    /// It had counted before, and changes nothing.
    Repeat,
}

//! What refuses a report or an import.
use hall_store::Unavailable;
use std::alloc::AllocError;
use thiserror::Error;

/// Why there is no report.
#[derive(Clone, Copy, Debug, PartialEq, Eq, Error)]
pub enum ReportFault {
    /// No machine has the number that was asked for.
    #[error("NoMachine")]
    NoMachine = 1,
    /// The store can't answer now.
    #[error("Unavailable")]
    Unavailable = 2,
    /// Memory ran out.
    #[error("Memory")]
    Memory = 3,
}

impl From<Unavailable> for ReportFault {
    ghost use Rattle.std.specs.Prelude.{◌≡◌};
    ghost use Rattle.hall_report.specs.declared.fault.ReportFault.TheVariants as fault;

    ghost from_gives = { λ unavailable given. given ≡ fault.Unavailable };

    fn from(_unavailable: Unavailable) -> ReportFault {
        ReportFault::Unavailable
    }
}

impl From<AllocError> for ReportFault {
    ghost use Rattle.std.specs.Prelude.{◌≡◌};
    ghost use Rattle.hall_report.specs.declared.fault.ReportFault.TheVariants as fault;

    ghost from_gives = { λ refused given. given ≡ fault.Memory };

    fn from(_refused: AllocError) -> ReportFault {
        ReportFault::Memory
    }
}

/// Why a file isn't imported.
#[derive(Clone, Copy, Debug, PartialEq, Eq, Error)]
pub enum ImportFault {
    /// The first record isn't `key,mac,arch,uuid,pool`.
    #[error("BadHeader")]
    BadHeader,
    /// The first bad record after the header, counted from 1.
    #[error("BadRow({0})")]
    BadRow(u64),
    /// Memory ran out.
    #[error("Memory")]
    Memory,
}

impl From<AllocError> for ImportFault {
    ghost use Rattle.std.specs.Prelude.{◌≡◌};
    ghost use Rattle.hall_report.specs.declared.fault.ImportFault.TheVariants as fault;

    ghost from_gives = { λ refused given. given ≡ fault.Memory };

    fn from(_refused: AllocError) -> ImportFault {
        ImportFault::Memory
    }
}

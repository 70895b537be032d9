//! Faults of what an operator asked for.
ghost use Rattle.std.specs.Prelude.{◌≡◌};
ghost use Rattle.hall_report.specs.Fault.{name_of};

use crate::fault::{ImportFault, ReportFault};
use std::alloc::AllocError;

/// The fault that ended a run.
#[derive(Clone, Copy, PartialEq, Eq)]
pub enum Fault {
    /// An input or the value of an option isn't of its form.
    BadInput,
    /// A read or a write failed.
    Io,
    Memory,
    /// A socket couldn't be bound.
    Bind,
    /// The hall's file can't be read or written now.
    Unavailable,
    /// The file already has one of a hall's tables.
    NotEmpty,
    /// The file isn't a hall's.
    NotAHall,
    /// The hall's tables are of another version.
    OtherVersion,
    /// No machine has the number that was asked for.
    NoMachine,
    /// The first record of an import isn't its header.
    BadHeader,
    /// A row of an import is malformed.
    BadRow,
}

impl Fault {
    /// The name that is printed.
    pub fn name(self) -> &'static str
        ensures { result.now ≡ name_of self }
    {
        match self {
            Fault::BadInput => "BadInput",
            Fault::Io => "Io",
            Fault::Memory => "Memory",
            Fault::Bind => "Bind",
            Fault::Unavailable => "Unavailable",
            Fault::NotEmpty => "NotEmpty",
            Fault::NotAHall => "NotAHall",
            Fault::OtherVersion => "OtherVersion",
            Fault::NoMachine => "NoMachine",
            Fault::BadHeader => "BadHeader",
            Fault::BadRow => "BadRow",
        }
    }
}

impl From<AllocError> for Fault {
    ghost use Rattle.hall_report.specs.declared.task_fault.Fault.TheVariants as fault;

    ghost from_gives = { λ refused given. given ≡ fault.Memory };

    fn from(_refused: AllocError) -> Fault {
        Fault::Memory
    }
}

impl From<ReportFault> for Fault {
    ghost use Rattle.hall_report.specs.Fault.{of_report};

    ghost from_gives = { λ cause given. given ≡ of_report cause };

    fn from(cause: ReportFault) -> Fault {
        match cause {
            ReportFault::NoMachine => Fault::NoMachine,
            ReportFault::Unavailable => Fault::Unavailable,
            ReportFault::Memory => Fault::Memory,
        }
    }
}

impl From<ImportFault> for Fault {
    ghost use Rattle.hall_report.specs.Fault.{of_import};

    ghost from_gives = { λ cause given. given ≡ of_import cause };

    fn from(cause: ImportFault) -> Fault {
        match cause {
            ImportFault::BadHeader => Fault::BadHeader,
            ImportFault::BadRow(_) => Fault::BadRow,
            ImportFault::Memory => Fault::Memory,
        }
    }
}

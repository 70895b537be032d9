//! Why a file names no halls.
use std::alloc::AllocError;
use thiserror::Error;

/// Why a file names no halls, as a sentence says what it should have.
#[derive(Clone, Copy, Debug, PartialEq, Eq, Error)]
pub enum HallsFault {
    #[error("it must be TOML, with a table for each hall, as [berlin]")]
    Toml,
    #[error("it must name a hall: a table for each, as [berlin]")]
    NoHall,
    #[error("it may name at most 256 halls")]
    TooMany,
    #[error("a hall's name has 1 to 32 characters of a-z, 0-9 and -, the first a letter")]
    Name,
    #[error("a hall must be a table, as [berlin]")]
    Table,
    #[error("a hall must have its desk, as desk = \"http://desk.berlin.example\"")]
    Desk,
    #[error("a hall must have the file of its token, as token_file = \"berlin.token\"")]
    TokenFile,
    #[error("a hall may have no other member than desk and token_file")]
    Member,
    #[error("memory ran out")]
    Memory,
}

impl From<AllocError> for HallsFault {
    ghost use Rattle.std.specs.Prelude.{◌≡◌};
    ghost use Rattle.halls_file.specs.declared.halls_fault.HallsFault.TheVariants.{Memory};

    ghost from_gives = { λ refused fault. fault ≡ Memory };

    fn from(_refused: AllocError) -> HallsFault {
        HallsFault::Memory
    }
}

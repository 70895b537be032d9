//! Options whose values aren't what they must be.
use crate::rows::OptionRow;
use std::alloc::{AllocError, AllocFailed, Global};

/// Why an option can't be read.
#[derive(Drop)]
pub enum Wrong {
    /// It isn't what it must be: the option, the word that was given, if there is one and it's no secret, and what it must be, as in
    /// `--pool Lab: a name has ..`.
    Text(String),
    Memory,
}

fn text(
    alloc: Global,
    row: &OptionRow,
    given: Option<&str>,
    must: &str,
) -> Result<String, AllocError> {
    let option = row.written(alloc)?;
    match given {
        Some(given) if !row.is_secret => format!(in alloc; "{option} {given}: {must}"),
        _ => format!(in alloc; "{option}: {must}"),
    }
}

impl Wrong {
    /// That the option isn't what its row says, by this word, if it is by one.
    pub fn of(alloc: Global, row: &OptionRow, given: Option<&str>) -> Wrong {
        Wrong::because(alloc, row, given, row.must)
    }

    /// That the option isn't what this text says.
    pub fn because(alloc: Global, row: &OptionRow, given: Option<&str>, must: &str) -> Wrong {
        match text(alloc, row, given, must) {
            Ok(text) => Wrong::Text(text),
            Err(AllocError) => Wrong::Memory,
        }
    }
}

impl<T: Drop> From<AllocFailed<T>> for Wrong {
    fn from(_: AllocFailed<T>) -> Wrong {
        Wrong::Memory
    }
}

impl From<AllocError> for Wrong {
    ghost use Rattle.std.specs.Prelude.{◌≡◌};
    ghost use Rattle.command_rows.specs.declared.wrong.Wrong.TheVariants.{Memory};

    ghost from_gives = { λ error wrong. wrong ≡ Memory };

    fn from(_error: AllocError) -> Wrong {
        Wrong::Memory
    }
}

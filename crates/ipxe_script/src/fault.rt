//! Why a text is no word, and why it is no script.
ghost use Rattle.std.specs.Prelude.{◌≡◌};

use std::alloc::{AllocError, AllocFailed};
use thiserror::Error;

/// Why no word or URI can be made of a text.
#[derive(Clone, Copy, Debug, PartialEq, Eq, Error)]
pub enum WordFault {
    #[error("the text is no word of a script")]
    BadWord = 1,
    #[error("out of memory")]
    Memory = 2,
}

/// Why a text or a list of commands is no script. Each function says in which order it looks for these.
#[derive(Clone, Copy, Debug, PartialEq, Eq, Error)]
pub enum ScriptFault {
    /// The first line isn't `#!ipxe`.
    #[error("the text does not begin with the line #!ipxe")]
    NoHead = 1,
    #[error("a line does not begin with a command")]
    UnknownCommand = 2,
    /// A command has a word too many or too few, or one that it doesn't accept.
    #[error("a command has a bad word, or a wrong number of words")]
    BadWord = 3,
    #[error("the last line does not end with a line feed")]
    NoFinalNewline = 4,
    /// There are more than 32 commands, or more than 32 words on one line.
    #[error("the script has too many lines, or a line has too many words")]
    TooMany = 5,
    #[error("out of memory")]
    Memory = 6,
}

impl From<AllocError> for WordFault {
    ghost use Rattle.ipxe_script.specs.declared.fault.WordFault.TheVariants.{Memory};

    ghost from_gives = { λ _ fault. fault ≡ Memory };

    fn from(_error: AllocError) -> WordFault {
        WordFault::Memory
    }
}

impl From<AllocError> for ScriptFault {
    ghost use Rattle.ipxe_script.specs.declared.fault.ScriptFault.TheVariants.{Memory};

    ghost from_gives = { λ _ fault. fault ≡ Memory };

    fn from(_error: AllocError) -> ScriptFault {
        ScriptFault::Memory
    }
}

impl<T: Drop> From<AllocFailed<T>> for ScriptFault {
    ghost use Rattle.ipxe_script.specs.declared.fault.ScriptFault.TheVariants.{Memory};

    ghost from_gives = { λ _ fault. fault ≡ Memory };

    fn from(_error: AllocFailed<T>) -> ScriptFault {
        ScriptFault::Memory
    }
}

impl From<WordFault> for ScriptFault {
    ghost use Rattle.ipxe_script.specs.Understood.{fault_of};

    ghost from_gives = { λ word script. script ≡ fault_of word };

    fn from(fault: WordFault) -> ScriptFault {
        match fault {
            WordFault::BadWord => ScriptFault::BadWord,
            WordFault::Memory => ScriptFault::Memory,
        }
    }
}

//! Why there is no desk to be asked.
use hallctl_requests::{AddressFault, TextFault};
use std::alloc::AllocError;
use thiserror::Error;

/// Why it isn't known which desk is asked, or in whose name.
#[derive(Clone, Copy, Debug, PartialEq, Eq, Error)]
pub(crate) enum DeskFault {
    #[error("say which desk: --desk http://HOST, or HALL_DESK")]
    NoDesk,
    #[error("HALL and HALL_DESK both say which desk: unset one of them, or say --hall or --desk")]
    TwoDesks,
    #[error("HALL must be a hall's name: 1 to 32 characters of a-z, 0-9 and -, the first a letter")]
    BadHall,
    #[error("say which file names the halls: --halls FILE, or HALLS, where HOME isn't set")]
    NoHome,
    #[error("{0}")]
    BadDesk(AddressFault),
    #[error("say which file has your token: --token-file FILE, or HALL_TOKEN_FILE")]
    NoTokenFile,
    #[error("the token's file can't be read")]
    UnreadToken,
    #[error("the first line of the token's file isn't a token: 1 to 128 visible characters of ASCII")]
    BadToken,
    #[error("memory ran out")]
    Memory,
}

impl From<AllocError> for DeskFault {
    fn from(_refused: AllocError) -> DeskFault {
        DeskFault::Memory
    }
}

impl From<AddressFault> for DeskFault {
    fn from(fault: AddressFault) -> DeskFault {
        match fault {
            AddressFault::Memory => DeskFault::Memory,
            AddressFault::NotAnAddress | AddressFault::Https => DeskFault::BadDesk(fault),
        }
    }
}

impl From<TextFault> for DeskFault {
    fn from(fault: TextFault) -> DeskFault {
        match fault {
            TextFault::BadText => DeskFault::BadToken,
            TextFault::Memory => DeskFault::Memory,
        }
    }
}

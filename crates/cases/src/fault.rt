//! Why an act isn't played.
use std::alloc::{AllocError, AllocFailed};
use std::io;
use thiserror::Error;

/// Why an act isn't played. It is compared with what must come as any answer is, but for want of memory, which ends the program.
#[derive(Clone, Copy, Debug, PartialEq, Eq, Error)]
pub enum CaseFault {
    #[error("no such act")]
    Act,
    #[error("the act isn't of its form")]
    Form,
    #[error("the store can't answer")]
    Unavailable,
    #[error("what is measured is refused, or finds nothing")]
    Refused,
    #[error("a file, a socket, a read or a write failed")]
    Io,
    #[error("out of memory")]
    Memory,
}

/// What comes of playing an act, beside what it prints.
pub type Played = Result<(), CaseFault>;

impl From<AllocError> for CaseFault {
    fn from(_: AllocError) -> CaseFault {
        CaseFault::Memory
    }
}

impl<T: Drop> From<AllocFailed<T>> for CaseFault {
    fn from(_: AllocFailed<T>) -> CaseFault {
        CaseFault::Memory
    }
}

impl From<io::Error> for CaseFault {
    fn from(_: io::Error) -> CaseFault {
        CaseFault::Io
    }
}

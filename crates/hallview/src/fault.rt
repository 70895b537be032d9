//! Why nothing is served.
use std::alloc::AllocError;
use std::net::SocketAddr;
use thiserror::Error;

/// Why pages aren't served, or not any more. No client and no desk can be the cause.
#[derive(Clone, Copy, Debug, Error)]
pub(crate) enum ServeFault {
    #[error("{0}: the address to listen at can't be taken")]
    Bind(SocketAddr),
    /// The system's clocks fail, or one of them is before 1970.
    #[error("the system's clock fails")]
    Clock,
    #[error("the system gives no random octets")]
    Random,
    /// The system can't say any more where something comes.
    #[error("the system can't wait for sockets")]
    Wait,
    #[error("memory ran out")]
    Memory,
}

impl From<AllocError> for ServeFault {
    fn from(_refused: AllocError) -> ServeFault {
        ServeFault::Memory
    }
}

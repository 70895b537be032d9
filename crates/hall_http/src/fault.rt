//! Why a request makes no event.
ghost use Rattle.std.specs.Prelude.{◌≡◌};

use std::alloc::AllocError;
use thiserror::Error;

/// Why a request makes no event: the first cause of this order, from BadRequest by its head to TooLarge, and
/// then BadRequest by its body.
#[derive(Clone, Copy, Debug, PartialEq, Eq, Error)]
pub enum HttpFault {
    /// The request is malformed.
    #[error("BadRequest")]
    BadRequest = 1,
    /// The target has no route.
    #[error("NoRoute")]
    NoRoute = 2,
    /// The route has another method.
    #[error("WrongMethod")]
    WrongMethod = 3,
    /// There is no Content-Length.
    #[error("NeedLength")]
    NeedLength = 4,
    /// The body is too large.
    #[error("TooLarge")]
    TooLarge = 5,
    /// Memory is wanting.
    #[error("Memory")]
    Memory = 6,
}

impl From<AllocError> for HttpFault {
    ghost use Rattle.hall_http.specs.declared.fault.HttpFault.TheVariants.{Memory};

    ghost from_gives = { λ _ fault. fault ≡ Memory };

    fn from(_error: AllocError) -> HttpFault {
        HttpFault::Memory
    }
}

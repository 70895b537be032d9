//! A turn of the service.
use crate::clocks::{Clocks, Now};

/// A turn of the service: its system, and the moment at which it began.
#[derive(Clone, Copy)]
pub(crate) struct Turn<'a> {
    pub(crate) rt: &'a HostRuntime,
    pub(crate) clocks: Clocks,
    pub(crate) now: Now,
}

impl Turn<'_> {
    /// The moment that it is by now, in milliseconds, after something that may have taken long.
    pub(crate) fn later(&self) -> u64 {
        self.clocks.millis(self.rt).unwrap_or(self.now.millis)
    }
}

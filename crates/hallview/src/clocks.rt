//! The system's clocks.
use std::time::{Instant, SystemTime, UNIX_EPOCH};

/// A moment by both clocks.
#[derive(Clone, Copy)]
pub(crate) struct Now {
    /// Milliseconds since the service began, on a clock that never goes back.
    pub(crate) millis: u64,
    /// Seconds since 1970.
    pub(crate) seconds: u64,
}

/// Clocks since a service began.
#[derive(Clone, Copy)]
pub(crate) struct Clocks {
    start: Instant,
}

/// The seconds since 1970 by the system's clock. None where it fails, or is before that.
pub(crate) fn seconds_since_1970(rt: &HostRuntime) -> Option<u64> {
    let time = SystemTime::now(rt).ok()?;
    Some(time.duration_since(UNIX_EPOCH).ok()?.as_secs())
}

impl Clocks {
    /// Clocks that count from now on. None where the system's clock fails.
    pub(crate) fn start(rt: &HostRuntime) -> Option<Clocks> {
        let start = Instant::now(rt).ok()?;
        Some(Clocks { start })
    }

    /// The milliseconds since the service began.
    pub(crate) fn millis(&self, rt: &HostRuntime) -> Option<u64> {
        let passed = self.start.elapsed(rt).ok()?;
        u64::try_from(passed.as_millis()).ok()
    }

    /// The moment that it is. None where a clock fails.
    pub(crate) fn now(&self, rt: &HostRuntime) -> Option<Now> {
        let millis = self.millis(rt)?;
        let seconds = seconds_since_1970(rt)?;
        Some(Now { millis, seconds })
    }
}

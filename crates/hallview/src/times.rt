//! How much of a time has passed. Moments and times are milliseconds.
ghost use Rattle.std.specs.Prelude.{◌≡◌, ◌-◌, ◌≤◌, ◌↔◌, IsTrue};

/// Whether this time has passed since a moment.
pub(crate) fn has_passed(now: u64, since: u64, time: u64) -> bool
    ensures { IsTrue result ↔ (time ≤ now - since) }
{
    now.saturating_sub(since) >= time
}

/// The time until this time has passed since a moment.
pub(crate) fn left(now: u64, since: u64, time: u64) -> u64
    ensures { result ≡ time - (now - since) }
{
    time.saturating_sub(now.saturating_sub(since))
}

/// The time until a moment.
pub(crate) fn until(now: u64, moment: u64) -> u64
    ensures { result ≡ moment - now }
{
    moment.saturating_sub(now)
}

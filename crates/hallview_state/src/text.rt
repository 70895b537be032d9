//! Moments, times and counts in words.
ghost use Rattle.std.specs.Prelude.{◌≡◌, true, IfOk, decimal, string_bytes};
ghost use Rattle.hallview_state.specs.{Exposition.is_one_line, Spans.span_text};

use jiff::Timestamp;
use std::alloc::{AllocError, Global};

// The seconds of a minute and an hour.
const MINUTE: u64 = 60;

const HOUR: u64 = 3_600;

/// The seconds of a day.
pub const DAY: u64 = 86_400;

fn time_of(moment: u64) -> Option<Timestamp> {
    let seconds = i64::try_from(moment).ok()?;
    Timestamp::from_second(seconds).ok()
}

/// A moment in UTC, as `2026-09-21T14:13:20Z` (RFC 3339 section 5.6).
pub fn stamp(alloc: Global, moment: u64) -> Result<String, AllocError> {
    match time_of(moment) {
        Some(time) => time.to_string(alloc),
        None => format!(in alloc; "{moment}"),
    }
}

/// A moment in UTC, as `2026-09-21 14:13:20 UTC`.
pub fn stamp_text(alloc: Global, moment: u64) -> Result<String, AllocError> {
    let text = stamp(alloc, moment)?.replace(alloc, "T", " ")?;
    text.replace(alloc, "Z", " UTC")
}

/// How far away a moment is, as hallctl says it.
pub fn until(alloc: Global, moment: u64, now: u64) -> Result<String, AllocError> {
    let seconds = moment.saturating_sub(now);
    if seconds == 0 {
        return String::from_str(alloc, "passed");
    }
    if seconds < MINUTE {
        return format!(in alloc; "in {seconds} s");
    }
    let minutes = seconds / MINUTE;
    format!(in alloc; "in {minutes} min")
}

/// How long something lasts.
pub fn span(alloc: Global, seconds: u64) -> Result<String, AllocError>
    ensures { IfOk result (λ text. string_bytes text ≡ span_text seconds) }
{
    if seconds < MINUTE {
        return format!(in alloc; "{seconds} s");
    }
    let (minutes, hours, days) = (seconds / MINUTE, seconds / HOUR, seconds / DAY);
    if hours < 2 {
        format!(in alloc; "{minutes} min")
    } else if days < 2 {
        format!(in alloc; "{hours} h")
    } else {
        format!(in alloc; "{days} days")
    }
}

/// A number in decimal digits.
#[tactic(auto, using(crate::proofs::ValueLemmas::decimal_is_one_line))]
pub fn number(alloc: Global, number: u64) -> Result<String, AllocError>
    ensures text { IfOk result (λ text. string_bytes text ≡ decimal number) }
    ensures line { IfOk result (λ text. is_one_line (string_bytes text) ≡ true) }
{
    format!(in alloc; "{number}")
}

/// How many hundredths of a whole a part is, at most 100.
pub fn percent(part: u64, whole: u64) -> u64 {
    match part.saturating_mul(100).checked_div(whole) {
        Some(hundredths) => hundredths.min(100),
        None => 0,
    }
}

/// A part of a whole in words: `12 %`, or `under 1 %`.
pub fn share(alloc: Global, part: u64, whole: u64) -> Result<String, AllocError> {
    let hundredths = percent(part, whole);
    if hundredths == 0 && part > 0 {
        return String::from_str(alloc, "under 1 %");
    }
    format!(in alloc; "{hundredths} %")
}

//! Lines of a log that no arrival has, and their moments.
use crate::members::{Members, Text};
use hall_report::LogFormat;
use hall_types::Moment;
use jiff::Timestamp;
use std::alloc::Global;

fn time_of(moment: Moment) -> Option<Timestamp> {
    let seconds = i64::try_from(moment.get()).ok()?;
    Timestamp::from_second(seconds).ok()
}

/// A moment as `1790000000` or `2026-09-21T14:13:20Z`.
pub fn moment_text(alloc: Global, format: LogFormat, moment: Moment) -> Text {
    if format != LogFormat::Seconds
        && let Some(time) = time_of(moment)
    {
        return time.to_string(alloc);
    }
    moment.get().to_string(alloc)
}

/// Members that begin with a moment, if there is one.
pub fn stamped(alloc: Global, moment: Option<Moment>) -> Members {
    let mut members = Members::new(alloc);
    if let Some(moment) = moment {
        members.push_made("@timestamp", moment_text(alloc, LogFormat::Json, moment));
    }
    members
}

fn object_line(
    alloc: Global,
    moment: Option<Moment>,
    action: &str,
    count: Option<u64>,
    words: &str,
) -> Text {
    let mut members = stamped(alloc, moment);
    members.push_text("event.action", action);
    if let Some(count) = count {
        members.push_number("hall.count", count);
    }
    members.push_text("message", words);
    members.into_line()
}

fn text_line(alloc: Global, format: LogFormat, moment: Option<Moment>, words: &str) -> Text {
    match moment {
        Some(moment) => {
            let moment = moment_text(alloc, format, moment)?;
            format!(in alloc; "{moment} - {words}\n")
        }
        None => format!(in alloc; "- {words}\n"),
    }
}

/// The line of what happened at a moment, if that is known, with its line feed: in one word for an object, and in words, `lost 3`. The
/// count is a member of an object.
pub(crate) fn event_line(
    alloc: Global,
    format: LogFormat,
    moment: Option<Moment>,
    action: &str,
    count: Option<u64>,
    words: &str,
) -> Text {
    match format {
        LogFormat::Json => object_line(alloc, moment, action, count, words),
        LogFormat::Seconds | LogFormat::Utc => text_line(alloc, format, moment, words),
    }
}

/// What became of a copy of the hall's file.
#[derive(Clone, Copy, PartialEq, Eq)]
pub enum Backup {
    /// It has so many octets, and nothing was served for so many milliseconds.
    Made { octets: u64, milliseconds: u64 },
    Failed,
    /// It wasn't made: the copy that is there has later numbers than the hall, so that it is of another hall, or of a later one.
    Refused,
}

// The nanoseconds of a millisecond.
const NANOSECONDS: u64 = 1_000_000;

fn backup_text(alloc: Global, backup: &Backup) -> Text {
    match backup {
        Backup::Made {
            octets,
            milliseconds,
        } => format!(in alloc; "backup of {octets} octets in {milliseconds} ms"),
        Backup::Failed => String::from_str(alloc, "backup failed"),
        Backup::Refused => String::from_str(
            alloc,
            "backup refused, the copy there has later numbers: move it away",
        ),
    }
}

fn backup_object(alloc: Global, moment: Option<Moment>, backup: &Backup, words: &str) -> Text {
    let mut members = stamped(alloc, moment);
    members.push_text("event.action", "backup");
    match backup {
        Backup::Made {
            octets,
            milliseconds,
        } => {
            members.push_text("event.outcome", "success");
            members.push_number("event.duration", milliseconds.saturating_mul(NANOSECONDS));
            members.push_number("file.size", *octets);
        }
        Backup::Failed | Backup::Refused => members.push_text("event.outcome", "failure"),
    }
    members.push_text("message", words);
    members.into_line()
}

/// The line that says what became of a copy of the hall's file.
pub fn backup_line(
    alloc: Global,
    format: LogFormat,
    moment: Option<Moment>,
    backup: &Backup,
) -> Text {
    let words = backup_text(alloc, backup)?;
    match format {
        LogFormat::Json => backup_object(alloc, moment, backup, words.as_str()),
        LogFormat::Seconds | LogFormat::Utc => text_line(alloc, format, moment, words.as_str()),
    }
}

/// The line where the service's clock or its source of random octets begins to fail. It has no moment.
pub fn unstamped_line(alloc: Global, format: LogFormat) -> Text {
    let words = "the clock or the random source failed";
    event_line(alloc, format, None, "unstamped", None, words)
}

/// The line that says how many lines before it couldn't be written.
pub fn lost_line(alloc: Global, format: LogFormat, moment: Option<Moment>, lost: u64) -> Text {
    let words = format!(in alloc; "lost {lost}")?;
    event_line(alloc, format, moment, "lost", Some(lost), words.as_str())
}

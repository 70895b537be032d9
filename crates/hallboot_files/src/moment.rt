//! Moments as names and texts have them.
use jiff::Timestamp;
use std::alloc::Global;
use std::fs::{self, File};
use std::io::{self, ErrorKind, Read};
use std::time::{SystemTime, UNIX_EPOCH};

fn time_of(moment: SystemTime) -> Option<Timestamp> {
    let since = moment.duration_since(UNIX_EPOCH).ok()?;
    let seconds = i64::try_from(since.as_secs()).ok()?;
    Timestamp::from_second(seconds).ok()
}

// A moment in UTC, as `2026-09-21T14:13:20Z` (RFC 3339 section 5.6).
fn text_of(alloc: Global, moment: SystemTime) -> io::Result<String> {
    let time = time_of(moment).ok_or(io::Error::from(ErrorKind::InvalidData))?;
    Ok(time.to_string(alloc)?)
}

/// When a file was last written, in UTC.
pub fn changed_at(rt: &HostRuntime, path: &str) -> io::Result<String> {
    text_of(rt.alloc(), fs::metadata(rt, path)?.modified()?)
}

// The octets of a file of SQLite up to the end of its user version (the file format of SQLite, section 1.3).
const UP_TO_USER_VERSION: usize = 64;

/// Of which moment a copy of a hall is, in UTC, by what was written in it: None where nothing was, as in a hall that was never restored.
pub fn copied_at(rt: &HostRuntime, path: &str) -> io::Result<Option<String>> {
    let mut start = [0; UP_TO_USER_VERSION];
    File::open(rt, path)?.read_exact(&mut start)?;
    let seconds = u32::from_be_bytes([start[60], start[61], start[62], start[63]]);
    if seconds == 0 {
        return Ok(None);
    }
    let time = Timestamp::from_second(i64::from(seconds));
    let time = time.map_err(|_| io::Error::from(ErrorKind::InvalidData))?;
    Ok(Some(time.to_string(rt.alloc())?))
}

/// When a file was last written, as the end of a name, as `.2026-09-21T14-13-20Z`.
pub(crate) fn changed_name(rt: &HostRuntime, path: &str) -> io::Result<String> {
    let text = changed_at(rt, path)?.replace(rt.alloc(), ":", "-")?;
    Ok(format!(in rt.alloc(); ".{text}")?)
}

/// The system's moment in UTC, with hyphens in place of colons, for the name of a file.
pub fn now_text(rt: &HostRuntime) -> io::Result<String> {
    let text = text_of(rt.alloc(), SystemTime::now(rt)?)?;
    Ok(text.replace(rt.alloc(), ":", "-")?)
}

/// The system's moment in seconds since 1970, None where 32 bits don't hold it.
pub fn now_seconds(rt: &HostRuntime) -> Option<u32> {
    let since = SystemTime::now(rt).ok()?.duration_since(UNIX_EPOCH).ok()?;
    u32::try_from(since.as_secs()).ok()
}

//! The line of a turn in a log.
use crate::outlet::Text;
use desk_lines::{Members, moment_text, stamped};
use hall_report::LogFormat;
use hall_types::Moment;
use serve_sockets::{Close, Handover, Kind, Said, Turn};
use std::alloc::{AllocError, Global};
use std::net::SocketAddr;

// The members of an arrival for whose words there was no memory.
const UNWORDED: &str = "\"message\":\"-\"";

fn source_text(alloc: Global, from: Option<SocketAddr>) -> Text {
    match from {
        Some(from) => from.to_string(alloc),
        None => String::from_str(alloc, "-"),
    }
}

fn close_word(cause: Close) -> &'static str {
    match cause {
        Close::Answered => "answered",
        Close::Late => "late",
        Close::Failed => "failed",
        Close::Crowded => "crowded",
    }
}

// A quiet moment is of note where it has a text, or the hall couldn't be read or written.
fn is_handover_of_note(handover: &Handover, arrival: Option<&str>) -> bool {
    handover.kind != Kind::Quiet || handover.said == Said::Unavailable || arrival.is_some()
}

// Whether a turn did something of note.
fn is_of_note(turn: &Turn, arrival: Option<&str>) -> bool {
    match turn {
        Turn::Handed(handover) | Turn::Unsent(handover) => is_handover_of_note(handover, arrival),
        Turn::Accepted { .. } | Turn::Closed { .. } => true,
        Turn::Failed | Turn::Moved(_) | Turn::PutOff(_) | Turn::Decided(_) | Turn::Nothing => false,
    }
}

fn source(turn: &Turn) -> Option<SocketAddr> {
    match turn {
        Turn::Handed(handover) | Turn::Unsent(handover) => handover.from,
        Turn::Accepted { from, .. }
        | Turn::Closed { from, .. }
        | Turn::Moved(from)
        | Turn::PutOff(from)
        | Turn::Decided(from) => Some(*from),
        Turn::Failed | Turn::Nothing => None,
    }
}

fn turn_words(alloc: Global, turn: &Turn, arrival: Option<&str>) -> Text {
    let arrival = arrival.unwrap_or("-");
    match turn {
        Turn::Unsent(_) => format!(in alloc; "{arrival}, unsent"),
        Turn::Accepted { instead_of, .. } => {
            let instead_of = source_text(alloc, *instead_of)?;
            format!(in alloc; "accepted instead of {instead_of}")
        }
        Turn::Closed { cause, .. } => {
            let word = close_word(*cause);
            format!(in alloc; "closed {word}")
        }
        _ => String::from_str(alloc, arrival),
    }
}

// What a turn did, in words.
fn push_words(members: &mut Members, turn: &Turn) {
    let words = turn_words(members.alloc(), turn, None);
    members.push_made("message", words);
}

// What a turn did, after where it came from.
fn push_turn(members: &mut Members, turn: &Turn, arrival: Option<&str>) {
    match turn {
        Turn::Accepted { instead_of, .. } => {
            members.push_text("event.action", "accepted");
            if let Some(other) = instead_of {
                let other = other.to_string(members.alloc());
                members.push_made("hall.instead_of", other);
            }
            push_words(members, turn);
        }
        Turn::Closed { cause, .. } => {
            members.push_text("event.action", "closed");
            members.push_text("event.reason", close_word(*cause));
            push_words(members, turn);
        }
        Turn::Unsent(_) => {
            members.push_true("hall.unsent");
            members.push_members(arrival.unwrap_or(UNWORDED));
        }
        _ => members.push_members(arrival.unwrap_or(UNWORDED)),
    }
}

fn object_line(alloc: Global, moment: Moment, turn: &Turn, arrival: Option<&str>) -> Text {
    let mut members = stamped(alloc, Some(moment));
    if let Some(from) = source(turn) {
        members.push_made("client.ip", from.ip().to_string(alloc));
        members.push_number("client.port", u64::from(from.port()));
    }
    push_turn(&mut members, turn, arrival);
    members.into_line()
}

/// The line of a turn, with its line feed: the moment, where the turn's datagram or connection came from, and the
/// text of the arrival, if the turn handed one over and it's of note, as in
/// `1790000000 192.0.2.9:68 discover DISCOVER 52:54:00:12:34:56 uefi64: ipxe-x86_64.efi`. In a log of objects the arrival is given by
/// its members. A turn in which nothing of note was done has none: a quiet moment without a text, octets that moved, an empty place.
/// One that failed is for [`Failures`](desk_operations::Failures).
pub fn turn_line(
    alloc: Global,
    format: LogFormat,
    moment: Moment,
    turn: &Turn,
    arrival: Option<&str>,
) -> Result<Option<String>, AllocError> {
    if !is_of_note(turn, arrival) {
        return Ok(None);
    }
    let line = match format {
        LogFormat::Json => object_line(alloc, moment, turn, arrival)?,
        LogFormat::Seconds | LogFormat::Utc => {
            let moment = moment_text(alloc, format, moment)?;
            let from = source_text(alloc, source(turn))?;
            let words = turn_words(alloc, turn, arrival)?;
            format!(in alloc; "{moment} {from} {words}\n")?
        }
    };
    Ok(Some(line))
}

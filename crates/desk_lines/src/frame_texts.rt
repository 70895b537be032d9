//! A client's frame and its answer, in words for a log.
use crate::members::Text;
use boot_desk::{Decision, Silence};
use hall_desk::{Account, Answer, Came, Notes};
use hall_types::Port;
use pxe_vendor::{Client, Kind};
use std::alloc::Global;

/// The kind of a client's message (RFC 2132 section 9.6).
pub(crate) fn kind_word(kind: Kind) -> &'static str {
    match kind {
        Kind::Discover => "DISCOVER",
        Kind::Request => "REQUEST",
    }
}

/// The option of `serve` that the port is given by.
pub(crate) fn port_word(port: Port) -> &'static str {
    match port {
        Port::Discover => "discover",
        Port::Boot => "boot",
    }
}

fn client_text(alloc: Global, client: &Client) -> Text {
    let kind = kind_word(client.kind);
    let mac = pxe_vendor::print_mac(alloc, &client.mac)?;
    let arch = client.arch.text();
    let by = if client.ipxe { " by iPXE" } else { "" };
    format!(in alloc; "{kind} {mac} {arch}{by}")
}

// Why a frame isn't answered.
fn cause_words(cause: Silence) -> &'static str {
    match cause {
        Silence::WrongPort => "at the wrong port",
        Silence::EchoTooLong => "its identifier is too long to echo",
        Silence::KnownUuid => "its UUID is another machine's",
        Silence::Full => "the hall is full",
        Silence::Exhausted => "the numbers are exhausted",
    }
}

/// Why a client got silence. A frame that was to be answered wasn't where memory or the hall's file failed.
pub(crate) fn silence_words(notes: &Notes) -> &'static str {
    if notes.unlisted {
        return "unknown, and no client is enlisted";
    }
    match notes.decision {
        Some(Decision::Silent(cause)) => cause_words(cause),
        Some(Decision::Loader | Decision::ScriptUrl | Decision::Enlist) | None => "unavailable",
    }
}

/// The file field of a reply (RFC 2131 section 2).
pub(crate) fn file_text(octets: &[u8]) -> &str {
    let Some(field) = octets.get(108..236) else {
        return "";
    };
    let len = field.iter().position(|octet| *octet == 0).unwrap_or(0);
    std::str::from_utf8(&field[..len]).unwrap_or("")
}

fn reply_text(answer: &Answer) -> &str {
    match answer {
        Answer::Frame(octets) => file_text(octets.as_slice()),
        Answer::Silence => "silence",
        Answer::Response { .. } | Answer::Unavailable => "unavailable",
    }
}

fn served_text(alloc: Global, client: &Client, answer: &Answer, notes: &Notes) -> Text {
    let came = client_text(alloc, client)?;
    let said = reply_text(answer);
    match answer {
        Answer::Silence => {
            let cause = silence_words(notes);
            format!(in alloc; "{came}: {said}, {cause}")
        }
        _ => format!(in alloc; "{came}: {said}"),
    }
}

fn frame_text(alloc: Global, answer: &Answer, account: &Account) -> Text {
    let said = reply_text(answer);
    match &account.came {
        Came::Malformed(fault) => format!(in alloc; "malformed, {fault}: {said}"),
        Came::NotServed(cause) => format!(in alloc; "not served, {cause}: {said}"),
        Came::Client(client) => served_text(alloc, client, answer, &account.notes),
        Came::Refused(_) | Came::Asked(_) | Came::Quiet => Ok(String::new(alloc)),
    }
}

/// A datagram that came to a port and how it was answered: a client's frame by its kind, its address, its architecture and the
/// file of the answer, or why there is none.
pub(crate) fn datagram_text(alloc: Global, port: Port, answer: &Answer, account: &Account) -> Text {
    let word = port_word(port);
    let frame = frame_text(alloc, answer, account)?;
    format!(in alloc; "{word} {frame}")
}

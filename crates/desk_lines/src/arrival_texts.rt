//! What came, how it was answered and which machine it moved, in words for a log. No token, key or digest is in them.
use crate::frame_texts::datagram_text;
use crate::members::Text;
use crate::request_texts::exchange_text;
use hall_desk::{Account, Answer, Moved, What};
use std::alloc::Global;

fn answered_text(alloc: Global, what: What<'_>, answer: &Answer, account: &Account) -> Text {
    match (what, answer) {
        (What::Datagram(port), _) => datagram_text(alloc, port, answer, account),
        (What::Request(request), _) => exchange_text(alloc, request.octets(), answer, account),
        (What::Quiet, Answer::Unavailable) => String::from_str(alloc, "quiet: unavailable"),
        (What::Quiet, _) => String::from_str(alloc, "quiet: silence"),
    }
}

/// Whether an arrival has a line in a log. A quiet moment has one where the hall couldn't be read or written, or a machine was
/// moved.
pub fn is_of_note(what: What<'_>, answer: &Answer, account: &Account) -> bool {
    match (what, answer) {
        (What::Quiet, Answer::Unavailable) => true,
        (What::Quiet, _) => account.notes.moved.is_some(),
        _ => true,
    }
}

// `machine 5: Ready to Allocated`, `machine 5: new, New` or `machine 5: Broken, gone`.
fn move_text(alloc: Global, moved: &Moved) -> Text {
    let id = moved.machine.get();
    let (from, between, to) = match (moved.from, moved.to) {
        (Some(from), Some(to)) => (from.text(), " to ", to.text()),
        (None, Some(to)) => ("new", ", ", to.text()),
        (Some(from), None) => (from.text(), ", ", "gone"),
        (None, None) => ("", "", "gone"),
    };
    format!(in alloc; "machine {id}: {from}{between}{to}")
}

/// What came and how it was answered, a client's silence with its cause, and then the machine whose status was changed:
/// `discover DISCOVER 52:54:00:12:34:56 uefi64: ipxe64.efi`, or
/// `boot REQUEST 52:54:00:12:34:56 uefi64: silence, the hall is full`, or
/// `POST /commands allocate of machine 1 by ada: 200 {..}; machine 1: Ready to Allocated`. The answer and the account are the desk's
/// for this arrival.
pub fn arrival_text(alloc: Global, what: What<'_>, answer: &Answer, account: &Account) -> Text {
    let text = answered_text(alloc, what, answer, account)?;
    match &account.notes.moved {
        Some(moved) => {
            let moved = move_text(alloc, moved)?;
            format!(in alloc; "{text}; {moved}")
        }
        None => Ok(text),
    }
}

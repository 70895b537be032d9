//! The words of answers. Those of a response are written only where the octets that they say are those that came.
use crate::offers::push_offer;
use cases::{CaseFault, Out};
use hall_desk::{Answer, Input};
use http::StatusCode;
use std::alloc::{AllocError, Global};

const JSON: &str = "application/json";

const PLAIN: &str = "text/plain";

// The one head that a desk writes before a body (RFC 9112 sections 4 and 6.3).
fn head(alloc: Global, code: u16, kind: &str, length: usize) -> Result<String, AllocError> {
    let status = StatusCode::from_u16(code).ok();
    let phrase = status
        .and_then(|status| status.canonical_reason())
        .unwrap_or("");
    format!(in alloc;
        "HTTP/1.1 {code} {phrase}\r\nContent-Type: {kind}\r\nContent-Length: {length}\r\nConnection: close"
    )
}

// The status code of a status line.
fn code_of(head: &str) -> Option<u16> {
    let (_, rest) = head.split_once(' ')?;
    let (code, _) = rest.split_once(' ')?;
    code.parse::<u16>().ok()
}

// Prints a response with this head and body, if the head is the one for it: whether it is.
fn push_known(out: &mut Out, given: &str, body: &str) -> Result<bool, AllocError> {
    let Some(code) = code_of(given) else {
        return Ok(false);
    };
    if head(out.alloc(), code, JSON, body.len())?.as_str() == given && !body.contains('\n') {
        out.show(format_args!("{code} {body}"));
        return Ok(true);
    }
    if head(out.alloc(), code, PLAIN, body.len())?.as_str() == given && body.ends_with('\n') {
        out.show(format_args!("{code} {PLAIN}\n{body}"));
        return Ok(true);
    }
    Ok(false)
}

/// Prints a response by HTTP.
pub fn push_response(out: &mut Out, octets: &[u8]) -> Result<(), AllocError> {
    if let Ok(text) = std::str::from_utf8(octets)
        && let Some((head, body)) = text.split_once("\r\n\r\n")
        && push_known(out, head, body)?
    {
        return Ok(());
    }
    out.push("response ");
    out.escaped(octets);
    Ok(())
}

/// Prints the answer to what came.
pub fn push_answer(out: &mut Out, input: &Input, answer: &Answer) -> Result<(), CaseFault> {
    match (answer, input) {
        (Answer::Frame(octets), Input::Datagram { octets: frame, .. }) => {
            push_offer(out, frame.as_slice(), octets.as_slice())?;
        }
        (Answer::Frame(octets) | Answer::Response { octets, .. }, _) => {
            push_response(out, octets.as_slice())?;
        }
        (Answer::Unavailable, _) => out.push("unavailable"),
        (Answer::Silence, _) => out.push("silence"),
    }
    Ok(())
}

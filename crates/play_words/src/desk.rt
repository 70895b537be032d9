//! What a desk is said to answer.
use cases::CaseFault;
use hallctl_tasks::{Attempt, Why};
use std::alloc::Global;

// A response with this status and body, as the desk writes it.
fn response(alloc: Global, text: &str) -> Result<Vec<u8>, CaseFault> {
    let (status, body) = text.split_once(' ').ok_or(CaseFault::Form)?;
    let length = body.len();
    let text = format!(in alloc;
        "HTTP/1.1 {status} OK\r\nContent-Type: application/json\r\nContent-Length: {length}\r\nConnection: close\r\n\r\n{body}"
    )?;
    Ok(text.into_bytes())
}

// The first octets of a response.
fn cut(alloc: Global, text: &str) -> Result<Vec<u8>, CaseFault> {
    let (count, text) = text.split_once(' ').ok_or(CaseFault::Form)?;
    let mut octets = response(alloc, text)?;
    octets.truncate(count.parse::<usize>().map_err(|_| CaseFault::Form)?);
    Ok(octets)
}

/// What one try has, by the words after `desk`.
pub(crate) fn attempt_of(alloc: Global, text: &str) -> Result<Attempt, CaseFault> {
    Ok(match text {
        "no address" => Attempt::Unsent(Why::NoAddress),
        "unreachable" => Attempt::Unsent(Why::Unreachable),
        "refused" => Attempt::Unsent(Why::Refused),
        "closed" => Attempt::Nothing(Why::Closed),
        "late" => Attempt::Nothing(Why::Late),
        "endless" => Attempt::TooLong,
        "garbage" => Attempt::Answer(Vec::from_slice(alloc, b"SSH-2.0-OpenSSH_9.7\r\n\r\n")?),
        _ => Attempt::Answer(match text.strip_prefix("cut ") {
            Some(rest) => cut(alloc, rest)?,
            None => response(alloc, text)?,
        }),
    })
}

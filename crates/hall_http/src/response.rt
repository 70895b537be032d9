//! The octets of responses.
ghost use Rattle.std.specs.Prelude.{◌≡◌, ◌++◌, IfOk, IsTrue, OnOk};
ghost use Rattle.hall_http.specs.Response.{phrase_of, kind_text, status_line, type_line, length_line, last_lines, response, response_of, IsResponse, IsStatus};

use hall_events::{BodyKind, Reply};
use http::StatusCode;
use itoa::Buffer;
use std::alloc::{AllocError, Global};

/// The response to a request that could not be answered: memory or disk was wanting, or the desk was
/// interrupted.
pub const UNAVAILABLE: &[u8] =
    b"HTTP/1.1 503 Service Unavailable\r\nContent-Type: application/json\r\nContent-Length: 25\r\nConnection: close\r\n\r\n{\"refusal\":\"Unavailable\"}";

// Room for the octets of a response's head.
const HEAD_ROOM: usize = 160;

#[tactic(auto, using(crate::proofs::ResponseLemmas::status_is_code), unfolding(crate::specs::Response::phrase_of))]
fn phrase(status: u16) -> &'static str
    requires { IsStatus status }
    ensures { result.now ≡ phrase_of status }
{
    match StatusCode::from_u16(status) {
        Ok(status) => status.canonical_reason().unwrap_or(""),
        Err(_) => unreachable!(),
    }
}

#[tactic(auto, unfolding(crate::specs::Response::kind_text))]
fn kind_text(kind: BodyKind) -> &'static str
    ensures { result.now ≡ kind_text kind }
{
    match kind {
        BodyKind::Text => "text/plain",
        BodyKind::Json => "application/json",
    }
}

#[tactic(auto, unfolding(crate::specs::Response::status_line))]
fn push_status_line(octets: &mut Vec<u8>, status: u16) -> Result<(), AllocError>
    requires { IsStatus status }
    ensures { OnOk result (octets.new.items ≡ octets.old.items ++ status_line status) }
{
    let mut buffer = Buffer::new();
    octets.extend_from_slice(b"HTTP/1.1 ")?;
    octets.extend_from_slice(buffer.format(status).as_bytes())?;
    octets.extend_from_slice(b" ")?;
    octets.extend_from_slice(phrase(status).as_bytes())?;
    octets.extend_from_slice(b"\r\n")
}

#[tactic(auto, unfolding(crate::specs::Response::type_line))]
fn push_type_line(octets: &mut Vec<u8>, kind: &str) -> Result<(), AllocError>
    ensures { OnOk result (octets.new.items ≡ octets.old.items ++ type_line kind.now) }
{
    octets.extend_from_slice(b"Content-Type: ")?;
    octets.extend_from_slice(kind.as_bytes())?;
    octets.extend_from_slice(b"\r\n")?;
    Ok(())
}

#[tactic(auto, unfolding(crate::specs::Response::length_line))]
fn push_length_line(octets: &mut Vec<u8>, size: usize) -> Result<(), AllocError>
    ensures { OnOk result (octets.new.items ≡ octets.old.items ++ length_line size) }
{
    let mut buffer = Buffer::new();
    octets.extend_from_slice(b"Content-Length: ")?;
    octets.extend_from_slice(buffer.format(size).as_bytes())?;
    octets.extend_from_slice(b"\r\n")
}

#[tactic(auto, unfolding(crate::specs::Response::last_lines))]
fn push_last_lines(octets: &mut Vec<u8>) -> Result<(), AllocError>
    ensures { OnOk result (octets.new.items ≡ octets.old.items ++ last_lines) }
{
    octets.extend_from_slice(b"Connection: close\r\n\r\n")
}

// The octets of a response with these parts.
fn response(alloc: Global, status: u16, kind: BodyKind, body: &str) -> Result<Vec<u8>, AllocError>
    requires { IsStatus status }
    ensures { IfOk result (λ octets. octets.items ≡ response status kind body.now) }
{
    let mut octets = Vec::with_capacity(alloc, body.len().saturating_add(HEAD_ROOM))?;
    push_status_line(&mut octets, status)?;
    push_type_line(&mut octets, kind_text(kind))?;
    push_length_line(&mut octets, body.len())?;
    push_last_lines(&mut octets)?;
    octets.extend_from_slice(body.as_bytes())?;
    Ok(octets)
}

// Whether a status is one of those of responses.
fn is_status(status: u16) -> bool
    ensures { IsTrue result → IsStatus status }
{
    matches!(
        status,
        200 | 400 | 401 | 403 | 404 | 405 | 409 | 410 | 411 | 412 | 413 | 423 | 503
    )
}

/// Whether an answer is a response: by HTTP, with one of the statuses of responses.
pub fn is_response(reply: &Reply) -> bool
    ensures { IsTrue result → IsResponse reply.now }
{
    match reply {
        Reply::Http { status, .. } => is_status(*status),
        Reply::File(_) | Reply::Nothing => false,
    }
}

/// The octets of an answer by HTTP: its status line, its fields and its body. The error is want of memory,
/// which is taken in one piece.
pub fn bytes_of(alloc: Global, reply: &Reply) -> Result<Vec<u8>, AllocError>
    requires { IsResponse reply.now }
    ensures { IfOk result (λ octets. octets.items ≡ response_of reply.now) }
{
    match reply {
        Reply::Http { status, kind, body } => response(alloc, *status, *kind, body.as_str()),
        Reply::File(_) | Reply::Nothing => unreachable!(),
    }
}

//! Responses of the desk.
ghost use Rattle.std.specs.{Prelude.{◌≡◌, ◌<◌, ◌^◌, ◌++◌, ℕ, List, Ok, IfOk, length, map, All, option_copied}, Result.result_map_both};
ghost use Rattle.hallctl_requests.specs.{Prelude.{IsHeaderWithin, header_bytes, BodyKind, IsStatus, response}, Response.{FindsHead, IsReading, answer_of, body_of, has_one_size, is_size, said, said_size, size_of, sized}};

use hall_http::{count, first_value, prefix, suffix};
use httparse::spans::{EMPTY_HEADER_SPAN, HeaderSpan, ResponseSpans, parse_response};
use httparse::{Error as HeadError, Status};
use pxe_vendor::{are_digits, decimal};
use thiserror::Error;

/// The maximum number of a Content-Length's digits.
const MAX_SIZE_LEN: usize = 15;

/// A response: its status and its body.
#[derive(Clone, Copy)]
pub struct Response<'o> {
    pub status: u16,
    pub body: &'o [u8],
}

/// Why octets are no response.
#[derive(Clone, Copy, Debug, PartialEq, Eq, Error)]
pub enum ResponseFault {
    /// They have no head of HTTP/1.0 or HTTP/1.1, not exactly one Content-Length, or more octets than it says.
    #[error("what answered is no desk: it doesn't speak HTTP as a desk does")]
    NotHttp = 1,
    /// The head isn't complete, or fewer octets follow it than its Content-Length says.
    #[error("the answer is cut")]
    Cut = 2,
    /// The first 8,192 octets don't complete the head, or it has more than 64 fields.
    #[error("the head of the answer is too long")]
    TooLong = 3,
}

/// The maximum number of a head's octets.
const MAX_HEAD_LEN: usize = 8192;

/// The maximum number of a head's fields.
const MAX_FIELDS: usize = 64;

/// What octets begin with.
#[derive(Clone, Copy)]
pub(crate) enum Look {
    /// A head.
    Head(ResponseSpans),
    /// No head, which more octets may complete.
    Open,
    /// No head of so few fields.
    Many,
    /// No head, whatever follows.
    Never,
}

/// Looks for a head at the front of the octets, and puts its fields into `room`.
fn look_for_head(octets: &[u8], room: &mut [HeaderSpan]) -> Look
    ensures { FindsHead octets.now (length room.old) room.new result }
{
    match parse_response(octets, room) {
        Ok(Status::Complete(spans)) => Look::Head(spans),
        Ok(Status::Partial) => Look::Open,
        Err(HeadError::TooManyHeaders) => Look::Many,
        Err(_) => Look::Never,
    }
}

fn is_size(text: &[u8]) -> bool
    ensures { result ≡ is_size text.now }
{
    1 <= text.len() && text.len() <= MAX_SIZE_LEN && are_digits(text)
}

// The number that a Content-Length says.
fn size_of(text: Option<&[u8]>) -> Option<u64>
    ensures { result ≡ size_of (option_copied text.entry) }
{
    match text {
        Some(text) if is_size(text) => Some(decimal(text)),
        _ => None,
    }
}

// How many octets the body is said to have.
fn said_size(front: &[u8], headers: &[HeaderSpan]) -> Option<u64>
    requires { All (IsHeaderWithin (length front.now)) headers.now }
    ensures { result ≡ said_size (map (header_bytes front.now) headers.now) }
{
    let of_chunks = count(front, headers, "transfer-encoding");
    if of_chunks == 0 && count(front, headers, "content-length") == 1 {
        size_of(first_value(front, headers, "content-length"))
    } else {
        None
    }
}

// What follows the head, if it has so many octets.
fn body_of(size: u64, after: &[u8]) -> Result<&[u8], ResponseFault>
    ensures exact { result_map_both (λ body. body.now) (λ fault. fault) result ≡ body_of size after.now }
    ensures rest { IfOk result (λ body. body.now ≡ after.now) }
{
    if (after.len() as u64) < size {
        Err(ResponseFault::Cut)
    } else if size < after.len() as u64 {
        Err(ResponseFault::NotHttp)
    } else {
        Ok(after)
    }
}

fn sized(status: u16, size: Option<u64>, after: &[u8]) -> Result<Response<'_>, ResponseFault>
    ensures exact { said result ≡ sized status size after.now }
    ensures rest { IfOk result (λ response. response.body.now ≡ after.now) }
{
    let Some(size) = size else {
        return Err(ResponseFault::NotHttp);
    };
    let body = body_of(size, after)?;
    Ok(Response { status, body })
}

// The answer of a head's status and fields, with what follows the head.
fn answer_of<'o>(
    status: u16,
    front: &[u8],
    headers: &[HeaderSpan],
    after: &'o [u8],
) -> Result<Response<'o>, ResponseFault>
    requires { All (IsHeaderWithin (length front.now)) headers.now }
    ensures exact { said result ≡ answer_of status (map (header_bytes front.now) headers.now) after.now }
    ensures rest { IfOk result (λ response. response.body.now ≡ after.now) }
{
    sized(status, said_size(front, headers), after)
}

fn read_inner(octets: &[u8]) -> Result<Response<'_>, ResponseFault>
    ensures exact { IsReading octets.now (said result) }
    ensures rest { IfOk result (λ response. (front : List ℕ) × (octets.now ≡ front ++ response.body.now)) }
{
    let front = prefix(octets, MAX_HEAD_LEN);
    let mut room = [EMPTY_HEADER_SPAN; MAX_FIELDS];
    match look_for_head(front, &mut room) {
        Look::Head(spans) => answer_of(
            spans.code,
            front,
            &room[..spans.headers],
            suffix(octets, spans.len),
        ),
        Look::Open => {
            if octets.len() < MAX_HEAD_LEN {
                Err(ResponseFault::Cut)
            } else {
                Err(ResponseFault::TooLong)
            }
        }
        Look::Many => Err(ResponseFault::TooLong),
        Look::Never => Err(ResponseFault::NotHttp),
    }
}

/// Reads a response from all octets that came until the desk closed the connection.
///
/// # Errors
///
/// `NotHttp` if the octets can't begin with a head of HTTP/1.0 or HTTP/1.1 (RFC 9112), if a head has a
/// Transfer-Encoding or not exactly one Content-Length of at most 15 digits, or if more octets follow it than
/// that says; `Cut` if fewer than 8,192 octets may still become a head, or if fewer follow the head;
/// `TooLong` if 8,192 octets don't complete the head or it has more than 64 fields.
#[tactic(auto, using(crate::specs::ResponseLaws::response_is_read))]
pub fn read_response(octets: &[u8]) -> Result<Response<'_>, ResponseFault>
    ensures exact { IsReading octets.now (said result) }
    ensures rest { IfOk result (λ response. (front : List ℕ) × (octets.now ≡ front ++ response.body.now)) }
    ensures desk { (status : ℕ) (kind : BodyKind) (body : List ℕ) → IsStatus status → length body < 10 ^ 15 → octets.now ≡ response status kind body
        → said result ≡ Ok (status, body) }
{
    read_inner(octets)
}

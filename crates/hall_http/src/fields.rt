//! What the fields of a head say.
ghost use Rattle.std.specs.{Prelude.{◌≡◌, ◌≤◌, ◌&&◌, nat_le, true, length, map, All, option_copied}, List.list_all, Char.is_ascii_digit, Str.str_eq_ignore_ascii_case};
ghost use Rattle.hall_http.specs.{Prelude.{IsHeaderWithin, header_bytes}, Fields.{count, first_value, is_length, length_of, within_limit, has_plain_body, body_length, is_visible, is_bearer_token, has_bearer_token, bearer_digest, bearer}};

use crate::fault::HttpFault;
use hall_types::Digest;
use httparse::spans::HeaderSpan;
use pxe_vendor::{are_digits, decimal};
use sha2::{Digest as _, Sha256};

/// The maximum number of a body's octets.
const MAX_BODY_LEN: u64 = 16384;

// Whether two names are one, in either case.
fn is_same_name(one: &[u8], other: &[u8]) -> bool
    ensures { result ≡ str_eq_ignore_ascii_case one.now other.now }
{
    one.eq_ignore_ascii_case(other)
}

/// How many fields have this name, in either case (RFC 9110 section 5.1).
pub fn count(front: &[u8], headers: &[HeaderSpan], name: &str) -> usize
    requires { All (IsHeaderWithin (length front.now)) headers.now }
    ensures { result ≡ count name.now (map (header_bytes front.now) headers.now) }
{
    let mut count = 0;
    for header in headers {
        if is_same_name(header.name.of(front), name.as_bytes()) {
            count += 1;
        }
    }
    count
}

/// The value of the first field with this name, in either case.
pub fn first_value<'f>(front: &'f [u8], headers: &[HeaderSpan], name: &str) -> Option<&'f [u8]>
    requires { All (IsHeaderWithin (length front.now)) headers.now }
    ensures { option_copied result ≡ first_value name.now (map (header_bytes front.now) headers.now) }
{
    for header in headers {
        if is_same_name(header.name.of(front), name.as_bytes()) {
            return Some(header.value.of(front));
        }
    }
    None
}

// ---- the length of the body

fn is_length(text: &[u8]) -> bool
    ensures { result ≡ is_length text.now }
{
    1 <= text.len() && text.len() <= 9 && are_digits(text)
}

// The length that a Content-Length says.
fn length_of(text: Option<&[u8]>) -> Result<u64, HttpFault>
    ensures { result ≡ length_of (option_copied text.entry) }
{
    let text = text.ok_or(HttpFault::NeedLength)?;
    if is_length(text) {
        Ok(decimal(text))
    } else {
        Err(HttpFault::BadRequest)
    }
}

fn within_limit(n: u64) -> Result<u64, HttpFault>
    ensures { result ≡ within_limit n }
{
    if n <= MAX_BODY_LEN {
        Ok(n)
    } else {
        Err(HttpFault::TooLarge)
    }
}

fn has_plain_body(front: &[u8], headers: &[HeaderSpan]) -> bool
    requires { All (IsHeaderWithin (length front.now)) headers.now }
    ensures { result ≡ has_plain_body (map (header_bytes front.now) headers.now) }
{
    count(front, headers, "transfer-encoding") == 0 && count(front, headers, "content-length") <= 1
}

/// How many octets the body is said to have.
pub(crate) fn body_length(front: &[u8], headers: &[HeaderSpan]) -> Result<u64, HttpFault>
    requires { All (IsHeaderWithin (length front.now)) headers.now }
    ensures { result ≡ body_length (map (header_bytes front.now) headers.now) }
{
    if !has_plain_body(front, headers) {
        return Err(HttpFault::BadRequest);
    }
    within_limit(length_of(first_value(front, headers, "content-length"))?)
}

// ---- the bearer token

fn are_visible(text: &[u8]) -> bool
    ensures { result ≡ list_all is_visible text.now }
{
    text.iter().all(|octet| 33 <= *octet && *octet <= 126)
}

/// Whether a text has 1 to `limit` visible characters of ASCII, and no other.
pub fn is_visible_text(text: &[u8], limit: usize) -> bool
    ensures { result ≡ (nat_le 1 (length text.now) && nat_le (length text.now) limit && list_all is_visible text.now) }
{
    1 <= text.len() && text.len() <= limit && are_visible(text)
}

/// Whether a text is a bearer token: 1 to 128 visible characters of ASCII (RFC 6750 section 2.1).
pub fn is_bearer_token(text: &[u8]) -> bool
    ensures { result ≡ is_bearer_token text.now }
{
    is_visible_text(text, 128)
}

// The digest of the token of `Bearer TOKEN`.
fn bearer_digest(text: &[u8]) -> Option<Digest>
    ensures { result ≡ bearer_digest text.now }
{
    if text.len() < 7 {
        return None;
    }
    let (scheme, token) = text.split_at(7);
    if is_same_name(scheme, b"bearer ") && is_bearer_token(token) {
        Some(Digest::from(Sha256::digest(token)))
    } else {
        None
    }
}

/// The digest of the bearer token that the first Authorization field brings.
pub(crate) fn bearer(front: &[u8], headers: &[HeaderSpan]) -> Option<Digest>
    requires { All (IsHeaderWithin (length front.now)) headers.now }
    ensures { result ≡ bearer (map (header_bytes front.now) headers.now) }
{
    bearer_digest(first_value(front, headers, "authorization")?)
}

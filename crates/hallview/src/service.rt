//! What a client asks by HTTP is answered with a page, unless too many octets of answers wait to be taken.
ghost use Rattle.std.specs.Prelude.{◌≡◌};
ghost use Rattle.hallview.specs.Kept.{has_room};

use bytes::Bytes;
use hallview_pages::{Answer, Asked, Field, answer_to};
use hallview_state::State;
use http::header::{HeaderNameError, HeaderValueError};
use http::{HeaderName, HeaderValue, Request, StatusCode};
use http_server::{Response, Service};
use std::alloc::{AllocError, Global};

/// The maximum of octets of all answers that clients haven't taken whole: 256 MiB. An answer goes beyond it only if it is the only one, or
/// a small one.
const MAX_KEPT: usize = 268_435_456;

// The maximum of octets of a small answer, which is given however many others wait.
const SMALL: usize = 262_144;

/// The pages of halls at a moment.
#[derive(Drop)]
pub(crate) struct Pages<'a> {
    pub(crate) alloc: Global,
    pub(crate) state: &'a State,
    /// The hosts that a request may name beside loopback's.
    pub(crate) names: &'a [String],
    /// In seconds since 1970.
    pub(crate) now: u64,
    /// How many octets the answers have that clients haven't taken whole.
    pub(crate) kept: usize,
}

// The first value of a request's field, if it is of visible characters.
fn field_of<'r>(request: &'r Request<Bytes>, name: &str) -> Option<&'r str> {
    request.headers().get(name)?.to_str().ok()
}

// The host that a request names: that of its target, or else of its Host field (RFC 9112 section 3.2.2).
fn host(request: &Request<Bytes>) -> Option<&str> {
    match request.uri().authority() {
        Some(authority) => Some(authority.as_str()),
        None => field_of(request, "host"),
    }
}

// The path and the query that a request names, and none where it names only a host.
fn target(request: &Request<Bytes>) -> &str {
    match request.uri().path_and_query() {
        Some(target) => target.as_str(),
        None => "",
    }
}

fn asked(request: &Request<Bytes>) -> Asked<'_> {
    Asked {
        method: request.method().as_str(),
        target: target(request),
        host: host(request),
        accept: field_of(request, "accept"),
    }
}

// Adds a field, and says whether its name and its value may stand in a head.
fn add_field(
    alloc: Global,
    response: &mut Response,
    name: &str,
    value: &str,
) -> Result<bool, AllocError> {
    let name = match HeaderName::from_bytes(alloc, name.as_bytes()) {
        Ok(name) => name,
        Err(HeaderNameError::Invalid) => return Ok(false),
        Err(HeaderNameError::OutOfMemory) => return Err(AllocError),
    };
    let value = match HeaderValue::from_str(alloc, value) {
        Ok(value) => value,
        Err(HeaderValueError::Invalid) => return Ok(false),
        Err(HeaderValueError::OutOfMemory) => return Err(AllocError),
    };
    response.add_header(name, value)?;
    Ok(true)
}

// Adds all fields, and says whether all may stand in a head.
fn add_fields(
    alloc: Global,
    response: &mut Response,
    fields: &[Field],
) -> Result<bool, AllocError> {
    for field in fields {
        if !add_field(alloc, response, field.name, field.value.as_str())? {
            return Ok(false);
        }
    }
    Ok(true)
}

// Writes an answer into a response. One that can't be sent becomes a 500 with nothing else.
fn fill(alloc: Global, response: &mut Response, answer: Answer) -> Result<(), AllocError> {
    let fields = answer.fields(alloc)?;
    let is_sendable = add_fields(alloc, response, fields.as_slice())?;
    match StatusCode::from_u16(answer.status) {
        Ok(status) if is_sendable => {
            response.status = status;
            response.body.push(Bytes::from_vec(answer.body)?)
        }
        _ => {
            response.clear();
            response.status = StatusCode::INTERNAL_SERVER_ERROR;
            Ok(())
        }
    }
}

// Whether an answer of so many octets may wait to be taken beside those that do.
fn has_room(kept: usize, len: usize) -> bool
    ensures { result ≡ has_room kept len }
{
    kept == 0 || len <= SMALL || kept.saturating_add(len) <= MAX_KEPT
}

// Has the client ask again (RFC 9110 section 15.6.4).
fn refuse(alloc: Global, response: &mut Response) -> Result<(), AllocError> {
    response.status = StatusCode::SERVICE_UNAVAILABLE;
    add_field(alloc, response, "content-type", "text/plain; charset=utf-8")?;
    add_field(alloc, response, "retry-after", "1")?;
    let body = Vec::from_slice(alloc, b"too many answers wait to be taken\n")?;
    response.body.push(Bytes::from_vec(body)?)
}

impl Service for Pages<'_> {
    ghost use Rattle.std.specs.Prelude.{◌≡◌};
    ghost use Rattle.hallview.specs.Kept.{IsKept};

    // No request changes what is shown.
    ghost answers = { λ old _ _ new. (new.state ≡ old.state) × IsKept old.kept new.kept };

    fn call(
        &mut self,
        request: &Request<Bytes>,
        response: &mut Response,
    ) -> Result<(), AllocError> {
        let asked = asked(request);
        let answer = answer_to(self.alloc, self.state, self.names, self.now, &asked)?;
        let len = answer.body.len();
        if !has_room(self.kept, len) {
            return refuse(self.alloc, response);
        }
        fill(self.alloc, response, answer)?;
        self.kept = self.kept.saturating_add(len);
        Ok(())
    }
}

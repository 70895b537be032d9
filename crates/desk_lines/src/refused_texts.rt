//! What a request was about that asks for nothing that the desk knows. It is looked for among the words that the desk knows, so that no
//! token is in it.
use crate::members::Text;
use hall_http::{BodyFault, HttpFault, body_fault};
use std::alloc::Global;

// The method, as far as it is one of the desk's.
fn method_of(word: &str) -> &'static str {
    match word {
        "GET" => "GET",
        "POST" => "POST",
        "" => "no method",
        _ => "another method",
    }
}

// The first part of the path.
fn route_of(target: &str) -> &'static str {
    if target.is_empty() {
        return "no path";
    }
    let path = target.strip_prefix('/').unwrap_or("");
    let (first, _) = path.split_once('/').unwrap_or((path, ""));
    match first {
        "ipxe" => "/ipxe",
        "report" => "/report",
        "orders" => "/orders",
        "machines" => "/machines",
        "commands" => "/commands",
        _ => "another path",
    }
}

// The word of the command that a body names, and what is wrong with its members.
fn fault_text(alloc: Global, fault: BodyFault) -> Text {
    let (kind, what, member) = match fault {
        BodyFault::NoCommand => return String::from_str(alloc, ", no command"),
        BodyFault::Missing(kind, member) => (kind, "no member", member),
        BodyFault::Other(kind) => (kind, "another", "member"),
        BodyFault::Bad(kind, member) => (kind, "bad member", member),
    };
    let command = kind.word();
    format!(in alloc; " {command}, {what} {member}")
}

// What is wrong with the body of a command, if that is why it was refused.
fn body_text(alloc: Global, fault: HttpFault, route: &str, body: &str) -> Text {
    let is_its_body = fault == HttpFault::BadRequest && route == "/commands";
    match body_fault(alloc, body.as_bytes())? {
        Some(fault) if is_its_body => fault_text(alloc, fault),
        _ => Ok(String::new(alloc)),
    }
}

/// The fault, and the method, the route, the command and the wrong member of the request, as far as the desk
/// knows them: `refused at once, BadRequest, POST /commands allocate, no member machine`.
pub(crate) fn refused_text(alloc: Global, octets: &[u8], fault: HttpFault) -> Text {
    let text = std::str::from_utf8(octets).unwrap_or("");
    let (head, body) = match text.split_once("\r\n\r\n") {
        Some((head, body)) => (head, Some(body)),
        None => (text, None),
    };
    let (method, rest) = head.split_once(' ').unwrap_or(("", ""));
    let (target, _) = rest.split_once(' ').unwrap_or(("", ""));
    let (method, route) = (method_of(method), route_of(target));
    let body = match body {
        Some(body) => body_text(alloc, fault, route, body)?,
        None => String::new(alloc),
    };
    format!(in alloc; "refused at once, {fault}, {method} {route}{body}")
}

//! A request and its response, in words for a log.
use crate::command_texts::command_text;
use crate::members::Text;
use crate::refused_texts::refused_text;
use hall_desk::{Account, Answer, Came};
use hall_events::Event;
use std::alloc::Global;

/// The longest body that is printed.
pub(crate) const MAX_BODY: usize = 100;

/// The path of a request, without its token.
pub(crate) fn path_text(alloc: Global, event: &Event) -> Text {
    match event {
        Event::Script { mac } => {
            let mac = pxe_vendor::print_mac(alloc, &mac.octets())?;
            format!(in alloc; "/ipxe/{mac}")
        }
        Event::Report { boot, .. } => {
            let boot = boot.get();
            format!(in alloc; "/report/{boot}")
        }
        Event::Orders { .. } => String::from_str(alloc, "/orders"),
        Event::OrderAnswer { order, .. } => {
            let order = order.get();
            format!(in alloc; "/orders/{order}")
        }
        Event::Machines { .. } => String::from_str(alloc, "/machines"),
        Event::OneMachine { machine, .. } => {
            let id = machine.get();
            format!(in alloc; "/machines/{id}")
        }
        Event::Command { .. } => String::from_str(alloc, "/commands"),
        Event::Frame { .. } | Event::Quiet => Ok(String::new(alloc)),
    }
}

/// The method of a request.
pub(crate) fn method_word(event: &Event) -> &'static str {
    match event {
        Event::Report { .. } | Event::OrderAnswer { .. } | Event::Command { .. } => "POST",
        _ => "GET",
    }
}

// The method and the path of a request, and what its body asks for.
fn event_text(alloc: Global, event: &Event) -> Text {
    let method = method_word(event);
    let path = path_text(alloc, event)?;
    match event {
        Event::Report { progress, .. } => {
            let word = progress.text();
            format!(in alloc; "{method} {path} {word}")
        }
        Event::OrderAnswer { outcome, .. } => {
            let word = outcome.text();
            format!(in alloc; "{method} {path} {word}")
        }
        Event::Command { command, .. } => {
            let command = command_text(alloc, command)?;
            format!(in alloc; "{method} {path} {command}")
        }
        _ => format!(in alloc; "{method} {path}"),
    }
}

fn request_text(alloc: Global, octets: &[u8], came: &Came) -> Text {
    match came {
        Came::Asked(asked) => event_text(alloc, asked.event()),
        Came::Refused(fault) => refused_text(alloc, octets, *fault),
        Came::Malformed(_) | Came::NotServed(_) | Came::Client(_) | Came::Quiet => {
            Ok(String::new(alloc))
        }
    }
}

/// The body of a response (RFC 9112 section 2.1).
pub(crate) fn body_of(octets: &[u8]) -> &str {
    let text = std::str::from_utf8(octets).unwrap_or("");
    match text.split_once("\r\n\r\n") {
        Some((_, body)) => body,
        None => "",
    }
}

// The status of a response, and its body where it is short and no script, which has a token.
fn response_text(alloc: Global, status: u16, octets: &[u8]) -> Text {
    let body = body_of(octets);
    if body.starts_with('{') && body.len() <= MAX_BODY {
        format!(in alloc; "{status} {body}")
    } else {
        let len = body.len();
        format!(in alloc; "{status} {len} octets")
    }
}

fn answer_text(alloc: Global, answer: &Answer) -> Text {
    match answer {
        Answer::Response { status, octets } => response_text(alloc, *status, octets.as_slice()),
        Answer::Unavailable => String::from_str(alloc, "unavailable"),
        Answer::Frame(_) | Answer::Silence => String::from_str(alloc, "silence"),
    }
}

// What came, and which operator's token it had, if it had one's.
fn sender_text(alloc: Global, octets: &[u8], account: &Account) -> Text {
    let came = request_text(alloc, octets, &account.came)?;
    match account.notes.operator {
        Some(operator) => format!(in alloc; "{came} by {operator}"),
        None => Ok(came),
    }
}

/// A request and how it was answered, without its token and its key: the method and the path, what is asked for, by which operator,
/// and the status of the response with a short body.
pub(crate) fn exchange_text(
    alloc: Global,
    octets: &[u8],
    answer: &Answer,
    account: &Account,
) -> Text {
    let came = sender_text(alloc, octets, account)?;
    let said = answer_text(alloc, answer)?;
    format!(in alloc; "{came}: {said}")
}

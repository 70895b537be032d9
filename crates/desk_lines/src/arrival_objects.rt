//! What came, how it was answered and which machine it moved, as members of an object of JSON for a log. No token, key or digest
//! is in them. Names are those of the Elastic Common Schema where it has one; those that begin `hall.` are the desk's own.
use crate::arrival_texts::arrival_text;
use crate::command_texts::command_text;
use crate::frame_texts::{file_text, kind_word, port_word, silence_words};
use crate::members::{Members, Text};
use crate::request_texts::{MAX_BODY, body_of, method_word, path_text};
use hall_desk::{Account, Answer, Came, Moved, What};
use hall_events::Event;
use pxe_vendor::Client;
use std::alloc::Global;

fn push_address(members: &mut Members, address: &[u8; 6]) {
    let text = pxe_vendor::print_mac(members.alloc(), address);
    members.push_made("client.mac", text);
}

fn push_client(members: &mut Members, client: &Client) {
    members.push_text("hall.message", kind_word(client.kind));
    push_address(members, &client.mac);
    members.push_text("hall.arch", client.arch.text());
    if client.ipxe {
        members.push_true("hall.ipxe");
    }
}

fn event_word(event: &Event) -> &'static str {
    match event {
        Event::Script { .. } => "script",
        Event::Report { .. } => "report",
        Event::Orders { .. } => "orders",
        Event::OrderAnswer { .. } => "order",
        Event::Machines { .. } => "machines",
        Event::OneMachine { .. } => "machine",
        Event::Command { .. } => "command",
        Event::Frame { .. } | Event::Quiet => "quiet",
    }
}

// An event, and what it asks for besides its path.
fn push_event(members: &mut Members, event: &Event) {
    let alloc = members.alloc();
    members.push_text("event.action", event_word(event));
    members.push_text("http.request.method", method_word(event));
    members.push_made("url.path", path_text(alloc, event));
    match event {
        Event::Script { mac } => push_address(members, &mac.octets()),
        Event::Report { progress, .. } => members.push_text("hall.stage", progress.text()),
        Event::OrderAnswer { outcome, .. } => members.push_text("hall.order", outcome.text()),
        Event::Command { command, .. } => {
            members.push_made("hall.command", command_text(alloc, command));
        }
        _ => {}
    }
}

// What came in a datagram or a request, and why it isn't answered, where that stands in it alone.
fn push_came(members: &mut Members, came: &Came) {
    let alloc = members.alloc();
    match came {
        Came::Malformed(fault) => members.push_made("event.reason", fault.to_string(alloc)),
        Came::NotServed(cause) => members.push_made("event.reason", cause.to_string(alloc)),
        Came::Client(client) => push_client(members, client),
        Came::Asked(asked) => push_event(members, asked.event()),
        Came::Refused(fault) => {
            members.push_text("event.action", "request");
            members.push_made("event.reason", fault.to_string(alloc));
        }
        Came::Quiet => {}
    }
}

fn push_frame_answer(members: &mut Members, answer: &Answer, account: &Account) {
    match (answer, &account.came) {
        (Answer::Frame(octets), _) => {
            members.push_text("event.outcome", "success");
            members.push_text("file.name", file_text(octets.as_slice()));
        }
        (_, Came::Client(_)) => {
            members.push_text("event.outcome", "failure");
            members.push_text("event.reason", silence_words(&account.notes));
        }
        _ => members.push_text("event.outcome", "failure"),
    }
}

fn push_response(members: &mut Members, status: u16, octets: &[u8]) {
    let body = body_of(octets);
    let outcome = if status == 200 { "success" } else { "failure" };
    members.push_text("event.outcome", outcome);
    members.push_number("http.response.status_code", u64::from(status));
    members.push_number("http.response.body.bytes", body.len() as u64);
    if body.starts_with('{') && body.len() <= MAX_BODY {
        members.push_text("http.response.body.content", body);
    }
}

fn push_answer(members: &mut Members, answer: &Answer) {
    match answer {
        Answer::Response { status, octets } => push_response(members, *status, octets.as_slice()),
        Answer::Frame(_) | Answer::Silence => {}
        Answer::Unavailable => {
            members.push_text("event.outcome", "failure");
            members.push_text("event.reason", "unavailable");
        }
    }
}

fn push_move(members: &mut Members, moved: &Moved) {
    members.push_number("hall.machine", moved.machine.get());
    if let Some(from) = moved.from {
        members.push_text("hall.before", from.text());
    }
    if let Some(to) = moved.to {
        members.push_text("hall.after", to.text());
    }
}

// Which machine it was about, and its move, if it moved one.
fn push_machine(members: &mut Members, account: &Account) {
    match (&account.notes.moved, &account.notes.machine) {
        (Some(moved), _) => push_move(members, moved),
        (None, Some(seen)) => members.push_number("hall.machine", seen.machine.get()),
        (None, None) => {}
    }
}

fn push_exchange(members: &mut Members, answer: &Answer, account: &Account) {
    push_came(members, &account.came);
    if let Some(operator) = account.notes.operator {
        members.push_text("user.name", operator.text());
    }
    push_answer(members, answer);
}

fn push_arrival(members: &mut Members, what: What<'_>, answer: &Answer, account: &Account) {
    match what {
        What::Datagram(port) => {
            members.push_text("event.action", port_word(port));
            push_came(members, &account.came);
            push_frame_answer(members, answer, account);
        }
        What::Request(_) => push_exchange(members, answer, account),
        What::Quiet => {
            members.push_text("event.action", "quiet");
            push_answer(members, answer);
        }
    }
}

/// The same facts as those of [`arrival_text`](crate::arrival_text), by name, and then that text as `message`.
pub fn arrival_members(alloc: Global, what: What<'_>, answer: &Answer, account: &Account) -> Text {
    let mut members = Members::new(alloc);
    push_arrival(&mut members, what, answer, account);
    push_machine(&mut members, account);
    members.push_made("message", arrival_text(alloc, what, answer, account));
    members.into_text()
}

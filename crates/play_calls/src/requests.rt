//! Requests by HTTP.
use cases::{Out, Played, string_of, text_of};
use hall_events::{Event, HallCommand};
use hall_http::{HttpFault, PartialRequest, Request};
use hall_types::{Digest, RequestKey};
use pxe_vendor::Octets;
use std::alloc::{AllocError, Global};
use std::fmt::Display;

type Bearer = Option<Digest>;

fn print_by(what: impl Display + Drop, bearer: &Bearer, out: &mut Out) {
    out.show(format_args!("{what} by "));
    match bearer {
        Some(digest) => out.hex(&digest.octets()),
        None => out.push("nobody"),
    }
}

fn print_command(by: &Bearer, key: &RequestKey, command: &HallCommand, out: &mut Out) -> Played {
    print_by("command", by, out);
    out.push(" key ");
    out.hex(&key.octets());
    out.push("\n");
    out.escaped(command.text(out.alloc())?.as_bytes());
    Ok(())
}

fn print_event(event: &Event, out: &mut Out) -> Played {
    match event {
        Event::Script { mac } => {
            out.push("script of ");
            out.hex(&mac.octets());
        }
        Event::Report {
            boot,
            token,
            progress,
        } => {
            out.show(format_args!("report of boot {} ", boot.get()));
            out.hex(&token.octets());
            out.show(format_args!(" {}", progress.text()));
        }
        Event::Orders { bearer } => print_by("orders", bearer, out),
        Event::OrderAnswer {
            bearer,
            order,
            outcome,
        } => {
            let (order, outcome) = (order.get(), outcome.text());
            print_by(format_args!("order {order} {outcome}"), bearer, out);
        }
        Event::Machines { bearer } => print_by("machines", bearer, out),
        Event::OneMachine { bearer, machine } => {
            print_by(format_args!("machine {}", machine.get()), bearer, out);
        }
        Event::Command {
            bearer,
            key,
            command,
        } => print_command(bearer, key, command, out)?,
        Event::Frame { .. } | Event::Quiet => out.push("no request"),
    }
    Ok(())
}

fn print_request(octets: Vec<u8>, out: &mut Out) -> Played {
    let request = Request::read(out.alloc(), Octets::from(octets))?;
    match request.asked() {
        Ok(asked) => print_event(asked.event(), out)?,
        Err(fault) => out.fault(fault as u8, fault),
    }
    Ok(())
}

/// The event of a request.
pub fn request(rest: &str, out: &mut Out) -> Played {
    print_request(text_of(out.alloc(), rest)?, out)
}

/// The event of a command without a token, of which this is the body.
pub fn command(rest: &str, out: &mut Out) -> Played {
    let body = string_of(out.alloc(), rest)?;
    let request = format!(in out.alloc();
        "POST /commands HTTP/1.1\r\nContent-Length: {}\r\n\r\n{body}",
        body.len()
    )?;
    print_request(request.into_bytes(), out)
}

fn decision(is_decided: bool) -> &'static str {
    if is_decided { "decided" } else { "undecided" }
}

// Whether octets that come at once decide a request.
fn is_decided(alloc: Global, octets: &[u8]) -> Result<bool, AllocError> {
    let mut request = PartialRequest::new(alloc);
    request.add(alloc, octets)
}

/// Whether a request is decided by these octets.
pub fn decided(rest: &str, out: &mut Out) -> Played {
    let octets = text_of(out.alloc(), rest)?;
    out.push(decision(is_decided(out.alloc(), octets.as_slice())?));
    Ok(())
}

// The fault of a request, if it has one, and whether its octets decide it.
type Read = (Option<HttpFault>, bool);

fn read(alloc: Global, octets: &[u8]) -> Result<Read, AllocError> {
    let request = Request::read(alloc, Octets::from(Vec::from_slice(alloc, octets)?))?;
    Ok((request.asked().err(), is_decided(alloc, octets)?))
}

/// The answer to each front of a request, from no octet to all: each length from which on it is another one. And each
/// length at which it is decided otherwise where it comes octet by octet.
pub fn prefixes(rest: &str, out: &mut Out) -> Played {
    let alloc = out.alloc();
    let octets = text_of(alloc, rest)?;
    let mut pieces = PartialRequest::new(alloc);
    let mut last = None;
    for length in 0..=octets.len() {
        let answer = read(alloc, octets.get(..length).unwrap_or(&[]))?;
        let piece = octets.get(length.saturating_sub(1)..length);
        let in_pieces = pieces.add(alloc, piece.unwrap_or(&[]))?;
        if in_pieces != answer.1 {
            out.show(format_args!("from {length} in pieces: {}\n", decision(in_pieces)));
        }
        if last == Some(answer) {
            continue;
        }
        out.show(format_args!("from {length} {} ", decision(answer.1)));
        match answer.0 {
            Some(fault) => out.fault(fault as u8, fault),
            None => out.push("event"),
        }
        out.push("\n");
        last = Some(answer);
    }
    Ok(())
}

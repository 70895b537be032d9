//! Requests by HTTP (RFC 9112), from the words of their arrivals.
use crate::arrivals::FRESH;
use cases::{CaseFault, halves};
use pxe_vendor::Octets;
use std::alloc::{AllocError, Global};
use std::fmt::Display;

// The header field with a bearer token (RFC 6750 section 2.1), nothing for `-`.
fn bearer(alloc: Global, token: &str) -> Result<String, AllocError> {
    if token == "-" {
        return Ok(String::new(alloc));
    }
    format!(in alloc; "Authorization: Bearer {token}\r\n")
}

fn get(alloc: Global, target: impl Display + Drop, token: &str) -> Result<String, CaseFault> {
    let bearer = bearer(alloc, token)?;
    Ok(format!(in alloc; "GET {target} HTTP/1.1\r\nHost: hall.example\r\n{bearer}\r\n")?)
}

fn post(alloc: Global, target: &str, token: &str, body: &str) -> Result<String, CaseFault> {
    let (bearer, length) = (bearer(alloc, token)?, body.len());
    Ok(format!(in alloc;
        "POST {target} HTTP/1.1\r\nHost: hall.example\r\n{bearer}Content-Length: {length}\r\n\r\n{body}"
    )?)
}

// `NUMBER STAGE`, and the boot's token where it is another one.
fn report(alloc: Global, words: &str) -> Result<String, CaseFault> {
    let (number, words) = halves(words, " ")?;
    let (stage, token) = words.split_once(' ').unwrap_or((words, FRESH));
    let target = format!(in alloc; "/report/{number}/{token}")?;
    let body = format!(in alloc; "{{\"stage\":\"{stage}\"}}")?;
    post(alloc, target.as_str(), "-", body.as_str())
}

// `TOKEN NUMBER OUTCOME`.
fn order(alloc: Global, words: &str) -> Result<String, CaseFault> {
    let (token, words) = halves(words, " ")?;
    let (number, outcome) = halves(words, " ")?;
    let target = format!(in alloc; "/orders/{number}")?;
    let body = format!(in alloc; "{{\"outcome\":\"{outcome}\"}}")?;
    post(alloc, target.as_str(), token, body.as_str())
}

// `TOKEN ID`.
fn machine(alloc: Global, words: &str) -> Result<String, CaseFault> {
    let (token, id) = halves(words, " ")?;
    get(alloc, format_args!("/machines/{id}"), token)
}

fn command(alloc: Global, words: &str) -> Result<String, CaseFault> {
    let (token, body) = halves(words, " ")?;
    post(alloc, "/commands", token, body)
}

/// The octets of a request, from the words after its moment.
pub(crate) fn request(alloc: Global, kind: &str, words: &str) -> Result<Octets, CaseFault> {
    let text = match kind {
        "command" => command(alloc, words),
        "script" => get(alloc, format_args!("/ipxe/{words}"), "-"),
        "report" => report(alloc, words),
        "order" => order(alloc, words),
        "machine" => machine(alloc, words),
        "orders" | "machines" => get(alloc, format_args!("/{kind}"), words),
        _ => Err(CaseFault::Act),
    };
    Ok(Octets::from(text?.into_bytes()))
}

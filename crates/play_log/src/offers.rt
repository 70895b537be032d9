//! The words of answers to frames. They are written only where the octets that they say are those that came.
use crate::frames::COOKIE;
use cases::Out;
use std::alloc::{AllocError, Global};
use std::net::Ipv4Addr;

/// Where the fields of a message by DHCP begin (RFC 2131 section 2).
const CIADDR: usize = 12;

const SIADDR: usize = 20;

const FILE: usize = 108;

const OPTIONS: usize = 240;

// The minimum of octets of a message (RFC 1542 section 2.1).
const LEAST: usize = 300;

fn four(octets: &[u8], at: usize) -> Option<[u8; 4]> {
    octets.get(at..)?.first_chunk::<4>().copied()
}

/// What is read of a reply.
#[derive(Clone, Copy)]
struct Reply<'a> {
    client: [u8; 4],
    next: [u8; 4],
    file: &'a str,
    /// The options with their tags and lengths, without the octet that ends them.
    options: &'a [u8],
}

// A text up to its first zero.
fn text_at(octets: &[u8], at: usize, len: usize) -> Option<&str> {
    let field = octets.get(at..at.checked_add(len)?)?;
    let end = field.iter().position(|octet| *octet == 0).unwrap_or(len);
    std::str::from_utf8(field.get(..end)?).ok()
}

/// The boot file that a reply names (RFC 2131 section 2).
pub fn file_of(octets: &[u8]) -> Option<&str> {
    text_at(octets, FILE, 128)
}

// How many octets options have up to the one that ends them.
fn len_of_options(options: &[u8]) -> Option<usize> {
    let mut at = 0usize;
    for _ in options {
        if *options.get(at)? == 0xff {
            return Some(at);
        }
        let len = usize::from(*options.get(at.checked_add(1)?)?);
        at = at.checked_add(2)?.checked_add(len)?;
    }
    None
}

fn reply_of(octets: &[u8]) -> Option<Reply<'_>> {
    let options = octets.get(OPTIONS..)?;
    Some(Reply {
        client: four(octets, CIADDR)?,
        next: four(octets, SIADDR)?,
        file: file_of(octets)?,
        options: options.get(..len_of_options(options)?)?,
    })
}

// The octets that words say: those of the frame that is answered, and the fields that are read.
fn encoded(alloc: Global, frame: &[u8], reply: &Reply<'_>) -> Result<Vec<u8>, AllocError> {
    let mut octets = Vec::new(alloc);
    octets.extend_from_slice(&[2, 1, 6, 0])?;
    octets.extend_from_slice(frame.get(4..8).unwrap_or(&[]))?;
    octets.resize(10, 0)?;
    octets.extend_from_slice(frame.get(10..12).unwrap_or(&[]))?;
    octets.extend_from_slice(&reply.client)?;
    octets.resize(20, 0)?;
    octets.extend_from_slice(&reply.next)?;
    octets.extend_from_slice(frame.get(24..44).unwrap_or(&[]))?;
    octets.resize(FILE, 0)?;
    octets.extend_from_slice(reply.file.as_bytes())?;
    octets.resize(OPTIONS - 4, 0)?;
    octets.extend_from_slice(&COOKIE)?;
    octets.extend_from_slice(reply.options)?;
    octets.push(0xff)?;
    octets.resize(octets.len().max(LEAST), 0)?;
    Ok(octets)
}

fn is_text(value: &[u8]) -> bool {
    let is_hex = value.len() % 2 == 0 && value.iter().all(|octet| octet.is_ascii_hexdigit());
    !value.is_empty() && !is_hex && value.iter().all(|octet| octet.is_ascii_graphic())
}

fn push_options(out: &mut Out, options: &[u8]) {
    let mut rest = options;
    for _ in options {
        let [tag, len, after @ ..] = rest else {
            return;
        };
        let (value, after) = after.split_at(after.len().min(usize::from(*len)));
        out.show(format_args!(" {tag}="));
        if is_text(value) {
            out.escaped(value);
        } else {
            out.hex(value);
        }
        rest = after;
    }
}

// The word of a message, by its first option (RFC 2132 section 9.6).
fn kind(options: &[u8]) -> Option<(&'static str, &[u8])> {
    match options {
        [53, 1, 2, rest @ ..] => Some(("OFFER", rest)),
        [53, 1, 5, rest @ ..] => Some(("ACK", rest)),
        _ => None,
    }
}

fn push_reply(out: &mut Out, word: &str, reply: &Reply<'_>, options: &[u8]) {
    out.push(word);
    if reply.client != [0; 4] {
        out.show(format_args!(" client={}", Ipv4Addr::from(reply.client)));
    }
    out.show(format_args!(" siaddr={} file=", Ipv4Addr::from(reply.next)));
    out.push(reply.file);
    push_options(out, options);
}

/// Prints the answer to a frame.
pub(crate) fn push_offer(out: &mut Out, frame: &[u8], octets: &[u8]) -> Result<(), AllocError> {
    if let Some(reply) = reply_of(octets)
        && let Some((word, options)) = kind(reply.options)
        && encoded(out.alloc(), frame, &reply)?.as_slice() == octets
    {
        push_reply(out, word, &reply, options);
        return Ok(());
    }
    out.push("octets ");
    out.hex(octets);
    Ok(())
}

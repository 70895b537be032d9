//! Messages by DHCP (RFC 2131 section 2), from the words of their arrivals. Nothing here is the desk's own: a fault of its encoder would be seen.
use cases::{CaseFault, halves, octets_of, parsed};
use hall_types::MacAddress;
use std::alloc::{AllocError, Global};
use std::net::Ipv4Addr;

/// What options stand behind (RFC 2132 section 2).
pub(crate) const COOKIE: [u8; 4] = [0x63, 0x82, 0x53, 0x63];

const MAC: [u8; 6] = [0x52, 0x54, 0, 0x12, 0x34, 0x56];

/// The header's first octets: op, htype, hlen, hops, xid, secs and flags.
const FRONT: [u8; 12] = [1, 1, 6, 0, 0x11, 0x22, 0x33, 0x44, 0, 0, 0x80, 0];

/// The fields of a request that words may name.
#[derive(Clone, Copy)]
struct Fields {
    client: [u8; 4],
    mac: [u8; 6],
}

fn read_fields(words: &str) -> Result<Fields, CaseFault> {
    let mut fields = Fields {
        client: [0; 4],
        mac: MAC,
    };
    for word in words.split_ascii_whitespace() {
        match halves(word, "=")? {
            ("client", value) => fields.client = parsed::<Ipv4Addr>(value)?.octets(),
            ("mac", value) => fields.mac = parsed::<MacAddress>(value)?.octets(),
            _ => return Err(CaseFault::Form),
        }
    }
    Ok(fields)
}

// The header: after its front ciaddr, yiaddr, siaddr and giaddr, from octet 28 on chaddr, sname and file, and at 236 the cookie.
fn push_header(octets: &mut Vec<u8>, fields: &Fields) -> Result<(), AllocError> {
    octets.extend_from_slice(&FRONT)?;
    octets.extend_from_slice(&fields.client)?;
    octets.resize(28, 0)?;
    octets.extend_from_slice(&fields.mac)?;
    octets.resize(236, 0)?;
    octets.extend_from_slice(&COOKIE)
}

// The octets of an option's value.
fn value(alloc: Global, word: &str) -> Result<Vec<u8>, CaseFault> {
    match hex::decode(alloc, word) {
        Ok(octets) => Ok(octets),
        Err(hex::FromHexError::OutOfMemory) => Err(CaseFault::Memory),
        Err(_) => Ok(Vec::from_slice(alloc, word.as_bytes())?),
    }
}

// `TAG=VALUE`, or `end`.
fn push_option(alloc: Global, octets: &mut Vec<u8>, word: &str) -> Result<(), CaseFault> {
    if word == "end" {
        octets.push(0xff)?;
        return Ok(());
    }
    let (tag, text) = halves(word, "=")?;
    let value = value(alloc, text)?;
    octets.push(parsed::<u8>(tag)?)?;
    octets.push(u8::try_from(value.len()).map_err(|_| CaseFault::Form)?)?;
    Ok(octets.extend_from_slice(value.as_slice())?)
}

/// The octets of a datagram, from the words after its port.
pub(crate) fn frame(alloc: Global, words: &str) -> Result<Vec<u8>, CaseFault> {
    if let Some(digits) = words.strip_prefix("octets") {
        return octets_of(alloc, digits);
    }
    let (names, options) = halves(words, "options")?;
    let mut octets = Vec::new(alloc);
    push_header(&mut octets, &read_fields(names)?)?;
    for word in options.split_ascii_whitespace() {
        push_option(alloc, &mut octets, word)?;
    }
    Ok(octets)
}

//! The words of arrivals.
use crate::frames::frame;
use crate::requests::request;
use crate::values::port;
use cases::{CaseFault, first, halves, parsed, text_of};
use dhcp_frame::read;
use hall_desk::{Arrival, Input};
use hall_http::Request;
use hall_types::{Client, Digest, Name, Port, Token};
use pxe_vendor::{NotServed, Octets, client};
use std::alloc::Global;

/// The token of boots, where words name no other.
pub(crate) const FRESH: &str = "000102030405060708090a0b0c0d0e0f";

/// The administrator ada, and the digest of the token `abc` (SHA-256).
pub const ADA: &str = "ada ba7816bf8f01cfea414140de5dae2223b00361a396177a9cb410ff61f20015ad";

/// The words that arrivals begin with.
const KINDS: [&str; 10] = [
    "frame", "request", "quiet", "script", "report", "command", "orders", "order", "machines",
    "machine",
];

/// Whether words with this first one are an arrival.
pub fn is_arrival(kind: &str) -> bool {
    KINDS.iter().any(|known| *known == kind)
}

/// The administrator of a new hall, and the digest of its token: `ADMIN DIGEST`.
pub fn admin(words: &str) -> Result<(Name, Digest), CaseFault> {
    let (its_name, its_digest) = first(words);
    Ok((parsed(its_name)?, parsed(its_digest)?))
}

// `PORT ..`, after the moment.
fn datagram(alloc: Global, words: &str) -> Result<Input, CaseFault> {
    let (at, words) = halves(words, " ")?;
    Ok(Input::Datagram {
        port: port(at)?,
        octets: Octets::from(frame(alloc, words)?),
    })
}

// The request that octets are.
fn request_of(alloc: Global, octets: Octets) -> Result<Input, CaseFault> {
    Ok(Input::Request(Request::read(alloc, octets)?))
}

// What comes by words of this kind, without their moment, and the fresh octets that they name.
fn input(alloc: Global, kind: &str, words: &str) -> Result<(Input, Token), CaseFault> {
    let its_token = parsed(FRESH)?;
    match kind {
        "frame" => Ok((datagram(alloc, words)?, its_token)),
        "quiet" => Ok((Input::Quiet, its_token)),
        "request" => {
            let octets = Octets::from(text_of(alloc, words)?);
            Ok((request_of(alloc, octets)?, its_token))
        }
        "script" => {
            let (mac, fresh) = words.split_once(' ').unwrap_or((words, FRESH));
            let octets = request(alloc, kind, mac)?;
            Ok((request_of(alloc, octets)?, parsed(fresh)?))
        }
        _ => {
            let octets = request(alloc, kind, words)?;
            Ok((request_of(alloc, octets)?, its_token))
        }
    }
}

/// The client whose frame arrives, and the port.
pub fn client_of(alloc: Global, arrival: &Arrival) -> Result<(Port, Client), CaseFault> {
    let Input::Datagram { port, octets } = &arrival.input else {
        return Err(CaseFault::Form);
    };
    let message = read(octets.as_slice()).map_err(|_| CaseFault::Form)?;
    match client(alloc, &message) {
        Ok(client) => Ok((*port, client)),
        Err(NotServed::Memory) => Err(CaseFault::Memory),
        Err(_) => Err(CaseFault::Form),
    }
}

/// The arrival of words.
pub fn arrival(alloc: Global, words: &str) -> Result<Arrival, CaseFault> {
    let (kind, rest) = halves(words, " ")?;
    let (at, rest) = match kind {
        "quiet" => (rest, ""),
        _ => halves(rest, " ")?,
    };
    let moment = parsed(at)?;
    let (input, fresh) = input(alloc, kind, rest)?;
    Ok(Arrival {
        moment,
        fresh,
        input,
    })
}

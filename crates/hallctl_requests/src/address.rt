//! Where a desk is.
use crate::checked_text::{Authority, TextFault};
use std::alloc::{AllocError, Global};
use thiserror::Error;
use url::{ParseError, Url};

/// Why a text isn't the address of a desk.
#[derive(Clone, Copy, Debug, PartialEq, Eq, Error)]
pub enum AddressFault {
    #[error("the desk's address is http://HOST or http://HOST:PORT")]
    NotAnAddress,
    #[error("the desk speaks http and not https")]
    Https,
    #[error("memory ran out")]
    Memory,
}

impl From<AllocError> for AddressFault {
    fn from(_refused: AllocError) -> AddressFault {
        AddressFault::Memory
    }
}

/// A desk's host and port.
#[derive(Drop)]
pub struct DeskAddress {
    /// A name or an address, one of IPv6 without brackets.
    pub host: String,
    pub port: u16,
    /// Both as a request's Host field has them (RFC 9110 section 7.2).
    pub authority: Authority,
}

// Whether a URL has nothing but its scheme, a host and a port.
fn is_bare(url: &Url) -> bool {
    url.path() == "/"
        && url.query().is_none()
        && url.fragment().is_none()
        && url.username().is_empty()
        && url.password().is_none()
}

fn authority_of(alloc: Global, host: &str, port: Option<u16>) -> Result<Authority, AddressFault> {
    let text = match port {
        Some(port) => format!(in alloc; "{host}:{port}")?,
        None => String::from_str(alloc, host)?,
    };
    match Authority::new(alloc, text.as_str()) {
        Ok(authority) => Ok(authority),
        Err(TextFault::BadText) => Err(AddressFault::NotAnAddress),
        Err(TextFault::Memory) => Err(AddressFault::Memory),
    }
}

// A host without the brackets around an address of IPv6.
fn bare_host(host: &str) -> &str {
    match host.strip_prefix('[') {
        Some(rest) => rest.strip_suffix(']').unwrap_or(rest),
        None => host,
    }
}

// The address that a URL is.
fn address_in(alloc: Global, url: &Url) -> Result<DeskAddress, AddressFault> {
    if url.scheme() == "https" {
        return Err(AddressFault::Https);
    }
    match (url.host_str(), url.port_or_known_default()) {
        (Some(host), Some(port)) if url.scheme() == "http" && is_bare(url) => Ok(DeskAddress {
            host: String::from_str(alloc, bare_host(host))?,
            port,
            authority: authority_of(alloc, host, url.port())?,
        }),
        _ => Err(AddressFault::NotAnAddress),
    }
}

impl DeskAddress {
    /// The address that a text is, as `http://desk.hall.example` or `http://10.0.0.5:8080`.
    pub fn new(alloc: Global, text: &str) -> Result<DeskAddress, AddressFault> {
        match Url::parse(alloc, text) {
            Ok(url) => address_in(alloc, &url),
            Err(ParseError::OutOfMemory) => Err(AddressFault::Memory),
            Err(_) => Err(AddressFault::NotAnAddress),
        }
    }
}

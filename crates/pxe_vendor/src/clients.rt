//! PXE clients (PXE 2.1; RFC 4578).
use crate::arch::Arch;
use crate::octets::Octets;

/// The kind of a client's message (RFC 2132 section 9.6).
#[derive(Clone, Copy)]
pub enum Kind {
    Discover,
    Request,
}

/// A machine that asks to be booted.
#[derive(Drop)]
pub struct Client {
    /// The Ethernet address.
    pub mac: [u8; 6],
    pub kind: Kind,
    pub arch: Arch,
    /// The machine's UUID, its octets in the order of option 97.
    pub uuid: Option<[u8; 16]>,
    /// The machine identifier, the value of option 97, which an answer gives back (RFC 4578 section
    /// 2.3).
    pub echo97: Option<Octets>,
    /// The boot item that a REQUEST asks for (PXE 2.1, vendor option 71).
    pub item: Option<[u8; 4]>,
    /// Whether the client is iPXE, which runs scripts.
    pub ipxe: bool,
}

//! The fixed part of a DHCP message (RFC 2131 section 2): where its fields begin, in octets from the
//! start of the message, and values that are always the same. A field ends where the next one begins.

pub(crate) const OP: usize = 0;

pub(crate) const HTYPE: usize = 1;

pub(crate) const HLEN: usize = 2;

pub(crate) const XID: usize = 4;

pub(crate) const SECS: usize = 8;

pub(crate) const FLAGS: usize = 10;

pub(crate) const CIADDR: usize = 12;

pub(crate) const YIADDR: usize = 16;

pub(crate) const SIADDR: usize = 20;

pub(crate) const GIADDR: usize = 24;

pub(crate) const CHADDR: usize = 28;

pub(crate) const SNAME: usize = 44;

pub(crate) const FILE: usize = 108;

pub(crate) const COOKIE: usize = 236;

/// The options field, without the cookie that begins it.
pub(crate) const OPTIONS: usize = 240;

/// The op field of a client's message.
pub(crate) const BOOT_REQUEST: u8 = 1;

/// The op field of a server's reply.
pub(crate) const BOOT_REPLY: u8 = 2;

/// The htype field of 10 Mb Ethernet (RFC 1700, hardware types).
pub(crate) const ETHERNET: u8 = 1;

/// The hlen field: the octets of an Ethernet address.
pub(crate) const ETHERNET_LEN: u8 = 6;

/// The first octets of the options field (RFC 2131 section 3).
pub(crate) const MAGIC_COOKIE: [u8; 4] = [99, 130, 83, 99];

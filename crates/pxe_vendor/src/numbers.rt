//! Numbers of messages and of vendor options.

/// The type of a client's DISCOVER (RFC 2132 section 9.6).
pub(crate) const DISCOVER: u8 = 1;

/// The type of a server's OFFER (RFC 2132 section 9.6).
pub(crate) const OFFER: u8 = 2;

/// The type of a client's REQUEST (RFC 2132 section 9.6).
pub(crate) const REQUEST: u8 = 3;

/// The type of a server's ACK (RFC 2132 section 9.6).
pub(crate) const ACK: u8 = 5;

/// The vendor option PXE_DISCOVERY_CONTROL (PXE 2.1, DHCP option 43 tags).
pub(crate) const DISCOVERY_CONTROL: u8 = 6;

/// Bit 3 of PXE_DISCOVERY_CONTROL: the client loads the boot file that the answer names.
pub(crate) const USE_BOOT_FILE: u8 = 8;

/// The vendor option PXE_BOOT_ITEM (PXE 2.1, DHCP option 43 tags).
pub(crate) const BOOT_ITEM: u8 = 71;

/// The octets of a boot item: a server type and a layer, of two octets each.
pub(crate) const BOOT_ITEM_LEN: usize = 4;

/// The octets of a UUID (RFC 4578 section 2.3).
pub(crate) const UUID_LEN: usize = 16;

/// The type of a machine identifier that is a UUID (RFC 4578 section 2.3).
pub(crate) const UUID_TYPE: u8 = 0;

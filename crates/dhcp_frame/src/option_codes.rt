//! Codes of DHCP options.

/// Padding, an octet without a length or a value (RFC 2132 section 3.1).
pub const PAD: u8 = 0;

/// The end of an option area, an octet without a length or a value (RFC 2132 section 3.2).
pub const END: u8 = 255;

/// Vendor-specific options, which are an option area of their own (RFC 2132 section 8.4).
pub const VENDOR_OPTIONS: u8 = 43;

/// Option overload (RFC 2132 section 9.3).
pub const OVERLOAD: u8 = 52;

/// The type of the message (RFC 2132 section 9.6).
pub const MESSAGE_TYPE: u8 = 53;

/// The server's IP address (RFC 2132 section 9.7).
pub const SERVER_IDENTIFIER: u8 = 54;

/// The vendor class (RFC 2132 section 9.13).
pub const VENDOR_CLASS: u8 = 60;

/// The user class (RFC 3004 section 4).
pub const USER_CLASS: u8 = 77;

/// The client's processor architectures (RFC 4578 section 2.1).
pub const CLIENT_ARCHITECTURES: u8 = 93;

/// The client's machine identifier (RFC 4578 section 2.3).
pub const MACHINE_IDENTIFIER: u8 = 97;

//! Why octets are not a frame, and why a reply can't be written.
use thiserror::Error;

/// The first fault of octets that are not a client's frame. `read` checks the header for the first four
/// faults in this order, the options field for a cut option, its option 52, and then for a cut option
/// the file field and the server name field where option 52 names them.
#[derive(Clone, Copy, Debug, PartialEq, Eq, Error)]
pub enum FrameFault {
    /// Fewer octets than the fixed fields and the cookie have (RFC 2131 section 2).
    #[error("fewer than 240 octets")]
    Short = 1,
    /// The op field isn't 1, BOOTREQUEST.
    #[error("the message is not a request")]
    NotRequest = 2,
    /// The htype field isn't 1 or the hlen field isn't 6.
    #[error("the hardware address is not an Ethernet address")]
    NotEthernet = 3,
    /// The options field doesn't begin with 99, 130, 83, 99 (RFC 2131 section 3).
    #[error("the cookie is missing")]
    NoCookie = 4,
    /// Option 52 of the options field isn't one octet of 1 to 3 (RFC 2132 section 9.3).
    #[error("option 52 is not one octet of 1 to 3")]
    BadOverload = 5,
    /// An option lacks its length octet, or its length is more than its area has left
    /// (RFC 2132 section 2).
    #[error("an option is cut")]
    CutOption = 6,
}

/// Why a reply can't be written. The lengths are checked in this order, before memory is taken.
#[derive(Clone, Copy, Debug, PartialEq, Eq, Error)]
pub enum WriteFault {
    /// An option's length octet can't hold the length of its value (RFC 2132 section 2).
    #[error("an option has more than 255 octets")]
    TooLong = 1,
    /// The file field can't hold the file's name and its end octet (RFC 2131 section 2).
    #[error("the file has more than 127 octets")]
    FileTooLong = 2,
    #[error("out of memory")]
    Memory = 3,
}

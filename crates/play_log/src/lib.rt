//! Arrivals and answers as words, for cases. An arrival is
//!
//! - `frame MOMENT PORT FIELDS options OPTIONS`: a message by DHCP on the port `discover` or `boot`. Fields are `mac=MAC` and `client=IPV4`, where
//!   they aren't 52:54:00:12:34:56 and 0.0.0.0. Options are `TAG=VALUE` in their order, and `end`: a value is a text, or octets where it is an
//!   even number of hexadecimal digits;
//! - `frame MOMENT PORT octets OCTETS`: any datagram, in words of hexadecimal, where `HH*N` is N times the same;
//! - `request MOMENT TEXT`: the octets of a request, where `\r`, `\n`, `\t`, `\0` and `\xHH` are octets and `\(N,..\)` repeats;
//! - `quiet MOMENT`: nothing came;
//! - `script MOMENT MAC`, `report MOMENT NUMBER STAGE`, `command MOMENT TOKEN JSON`, `orders MOMENT TOKEN`,
//!   `order MOMENT TOKEN NUMBER OUTCOME`, `machines MOMENT TOKEN` and `machine MOMENT TOKEN ID`: the request that does that. TOKEN is a bearer
//!   token, or `-` for none. A boot's token is 000102030405060708090a0b0c0d0e0f, where `script` and `report` don't end with another one.
//!
//! An answer is
//!
//! - `silence`, or `unavailable` where a request isn't answered by a response;
//! - `STATUS BODY` of JSON, or `STATUS text/plain` and the body from the next line on. That is written only where the octets before the body are
//!   the status line and the header fields that a desk has for it, with the status code's phrase by RFC 9110 section 15: so it says each octet;
//! - `OFFER FIELDS OPTIONS` or `ACK FIELDS OPTIONS`, where all else in the message is that of the frame which is answered, or 0, and options end
//!   with `ff` and zeros up to 300 octets. Fields are `client=IPV4` where it isn't 0.0.0.0, `siaddr=IPV4` and `file=TEXT`;
//! - `octets OCTETS` of a datagram, and `response TEXT`, where it is another one.
#![tactic(auto)]

mod arrivals;
mod frames;
mod offers;
mod requests;
mod responses;
mod values;

pub use arrivals::{ADA, admin, arrival, client_of, is_arrival};
pub use offers::file_of;
pub use responses::{push_answer, push_response};
pub use values::{key, last, maybe, numbers, place, port, some, uuid};

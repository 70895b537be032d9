//! DHCP messages as octets: reading a client's message with its options, and writing a reply.
#![tactic(auto)]

mod area;
mod fault;
mod frame;
mod joined;
mod layout;
pub mod option_codes;
mod overload;
mod reply;

pub use area::{OptionIter, one_reading};
pub use fault::{FrameFault, WriteFault};
pub use frame::{Frame, read};
pub use joined::JoinedValue;
pub use reply::{DhcpOption, MAX_FILE_LEN, MAX_VALUE_LEN, ReplyFields, write};

//! Where a desk is, what an operator's client sends to it, and how it reads an answer.
#![tactic(auto)]

mod address;
mod checked_text;
mod laws;
mod requests;
mod response;
mod tokens;

pub use address::{AddressFault, DeskAddress};
pub use checked_text::{Authority, BearerToken, CheckedText, TextFault};
pub use laws::one_request;
pub use requests::{Ask, RequestFault, request};
pub use response::{Response, ResponseFault, read_response};
pub use tokens::token_of;

//! The desk's side of HTTP: requests to events, answers to octets, and connections whose failures are noted.
#![tactic(auto)]

mod body;
mod command;
mod demand;
mod event;
mod fault;
mod fields;
mod head;
mod image;
mod known;
mod laws;
mod member;
mod noted;
mod partial;
mod report;
mod request;
mod resource;
mod response;
mod shape;
mod slices;
mod target;
mod value;
mod wrong_bodies;

pub use body::text_of;
pub use command::{KeyedCommand, command_in, has_parts, is_identified};
pub use fault::HttpFault;
pub use fields::{count, first_value, is_bearer_token, is_visible_text};
pub use laws::{answers_have_responses, one_response, unavailable_is_a_refusal};
pub use noted::Noted;
pub use partial::PartialRequest;
pub use report::{outcome_in, progress_in};
pub use request::{Asked, Request};
pub use response::{UNAVAILABLE, bytes_of, is_response};
pub use slices::{prefix, suffix};
pub use value::uuid_octets;
pub use wrong_bodies::{BodyFault, body_fault};

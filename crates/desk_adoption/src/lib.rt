//! Running servers are adopted: their machines become Deployed for their owner, without a boot and without a switch, by what comes to a desk.
#![tactic(auto)]

mod adopting;
mod carrying;
mod checking;
mod looking;
mod next;
mod server;
mod steps;
mod words;

pub use adopting::{Adopted, adopt};
pub use server::{Adopters, Server};

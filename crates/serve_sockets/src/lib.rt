//! Serving a hall on two sockets for datagrams and a listener, by turns, so that a slow or silent client delays nobody.
#![tactic(auto)]

mod bucket;
mod connection;
mod gathering;
mod handing;
mod handover;
mod listing;
mod lists;
mod next_ready;
mod ports;
mod reading;
mod replying;
mod ring;
mod room;
mod sent;
mod served_time;
mod service;
mod serving;
mod slots;
mod sockets;
mod table;
mod turn;
mod waiting;
mod writing;
mod yielding;

pub use ports::{Addresses, BindFault};
pub use service::Service;
pub use sockets::Sockets;
pub use table::MAX_CONNECTIONS;
pub use turn::{Close, Handover, Kind, Said, Source, Tick, Turn, TurnLog};

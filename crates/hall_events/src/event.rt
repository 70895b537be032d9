//! What comes to the desk.
ghost use Rattle.hall_events.specs.Event.{BringsImage};

use crate::command::HallCommand;
use hall_types::{Digest, MacAddress, Number, Outcome, Port, Progress, RequestKey, Token};
use pxe_vendor::Client;

/// What comes to the desk: a datagram, a request by HTTP, or a moment in which nothing else came.
#[derive(Drop)]
pub enum Event {
    /// A client's DHCP message, and the port that it came to.
    Frame {
        port: Port,
        client: Client,
    },
    /// A request for the script of the machine with this address.
    Script {
        mac: MacAddress,
    },
    /// A machine's report of the boot with this number and token.
    Report {
        boot: Number,
        token: Token,
        progress: Progress,
    },
    /// A request for the waiting orders, with the digest of its bearer token.
    Orders {
        bearer: Option<Digest>,
    },
    /// The answer to the order with this number.
    OrderAnswer {
        bearer: Option<Digest>,
        order: Number,
        outcome: Outcome,
    },
    /// A request for the list of machines.
    Machines {
        bearer: Option<Digest>,
    },
    /// A request for the machine with this number.
    OneMachine {
        bearer: Option<Digest>,
        machine: Number,
    },
    /// A command, with the key of its request.
    Command {
        bearer: Option<Digest>,
        key: RequestKey,
        command: HallCommand,
    },
    /// Nothing came for a while.
    Quiet,
}

impl Event {
    /// What every event's image is.
    pub fn brings_image(&self)
        ensures { BringsImage self.now }
    {
        if let Event::Command {
            command: HallCommand::AddImage { image },
            ..
        } = self
        {
            image.is_image();
        }
    }
}

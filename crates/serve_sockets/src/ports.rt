//! The sockets at which a service is reached.
ghost use Rattle.std.specs.Prelude.{◌≤◌, IfOk, length};

use crate::replying::{SendReply, Way};
use crate::ring::Origin;
use hall_types::Port;
use mio::net::{TcpListener, UdpSocket};
use mio::{Interest, Registry, Token};
use std::alloc::AllocError;
use std::io;
use std::net::{Net, SocketAddr};
use thiserror::Error;

/// Where a service is to be reached.
#[derive(Clone, Copy)]
pub struct Addresses {
    /// For datagrams to the DHCP server, port 67 (RFC 2131 section 4.1).
    pub discover: SocketAddr,
    /// For datagrams to the boot server, port 4011 (PXE 2.1).
    pub boot: SocketAddr,
    pub http: SocketAddr,
}

/// Why a service has no sockets.
#[derive(Clone, Copy, Debug, PartialEq, Eq, Error)]
pub enum BindFault {
    #[error("Bind")]
    Bind,
    #[error("Memory")]
    Memory,
}

impl From<AllocError> for BindFault {
    ghost use Rattle.std.specs.Prelude.{◌≡◌};
    ghost use Rattle.serve_sockets.specs.declared.ports.BindFault.{BindFault};

    ghost from_gives = { λ refused given. given ≡ BindFault.Memory };

    fn from(_: AllocError) -> BindFault {
        BindFault::Memory
    }
}

impl From<io::Error> for BindFault {
    ghost use Rattle.std.specs.Prelude.{◌≡◌};
    ghost use Rattle.serve_sockets.specs.declared.ports.BindFault.{BindFault};

    ghost from_gives = { λ refused given. given ≡ BindFault.Bind };

    fn from(_: io::Error) -> BindFault {
        BindFault::Bind
    }
}

/// The three sockets that are bound.
#[derive(Drop)]
pub(crate) struct Ports {
    pub discover: UdpSocket,
    pub boot: UdpSocket,
    pub listener: TcpListener,
}

impl Ports {
    pub fn bind(net: &impl Net, addresses: &Addresses) -> Result<Ports, BindFault> {
        let discover = UdpSocket::bind(net, addresses.discover)?;
        let boot = UdpSocket::bind(net, addresses.boot)?;
        let listener = TcpListener::bind(net, addresses.http)?;
        Ok(Ports {
            discover,
            boot,
            listener,
        })
    }

    /// Has the seats of the sockets marked where something comes.
    pub fn register(&mut self, registry: &Registry) -> Result<(), BindFault> {
        let discover = Token(Origin::Port(Port::Discover).seat());
        let boot = Token(Origin::Port(Port::Boot).seat());
        let listener = Token(Origin::Listener.seat());
        registry.register(&mut self.discover, discover, Interest::READABLE)?;
        registry.register(&mut self.boot, boot, Interest::READABLE)?;
        registry.register(&mut self.listener, listener, Interest::READABLE)?;
        Ok(())
    }

    /// Receives a datagram.
    pub fn receive(&self, port: Port, buffer: &mut [u8]) -> io::Result<(usize, SocketAddr)>
        ensures { IfOk result (λ received. received.0 ≤ length buffer.new) }
    {
        match port {
            Port::Discover => self.discover.recv_from(buffer),
            Port::Boot => self.boot.recv_from(buffer),
        }
    }

    fn send_to(&self, way: Way, octets: &[u8]) -> io::Result<usize> {
        match way.port {
            Port::Discover => self.discover.send_to(octets, way.client),
            Port::Boot => self.boot.send_to(octets, way.client),
        }
    }
}

impl SendReply for Ports {
    // One to a client without an address couldn't be sent: the system would send it to this machine itself.
    fn send_reply(&mut self, way: Way, octets: &[u8]) -> bool {
        !way.client.ip().is_unspecified() && self.send_to(way, octets).is_ok()
    }
}

// What Linux answers where the system has no more descriptors.
const ENFILE: i32 = 23;

// What it answers where the process has none.
const EMFILE: i32 = 24;

/// Whether an error is for want of descriptors.
pub(crate) fn is_without_descriptors(error: &io::Error) -> bool {
    matches!(error.raw_os_error(), Some(ENFILE | EMFILE))
}

//! Clients by HTTP.
use cases::{CaseFault, Played};
use std::io::{ErrorKind, Read, Write};
use std::net::{Shutdown, SocketAddr, TcpStream};

/// A client, whose calls don't wait. One that left, and one that sends datagrams, has no stream.
#[derive(Drop)]
pub struct Client {
    /// The name by which acts mean it.
    pub name: String,
    /// Its address as a log writes it.
    pub address: String,
    pub stream: Option<TcpStream>,
}

impl Client {
    /// A client that connects to a service.
    pub fn connect(rt: &HostRuntime, name: &str, service: SocketAddr) -> Result<Client, CaseFault> {
        let stream = TcpStream::connect(rt, service)?;
        stream.set_nonblocking(true)?;
        Ok(Client {
            name: String::from_str(rt.alloc(), name)?,
            address: stream.local_addr()?.to_string(rt.alloc())?,
            stream: Some(stream),
        })
    }

    fn stream(&mut self) -> Result<&mut TcpStream, CaseFault> {
        self.stream.as_mut().ok_or(CaseFault::Form)
    }

    /// Sends octets.
    pub fn send(&mut self, octets: &[u8]) -> Played {
        Ok(self.stream()?.write_all(octets)?)
    }

    /// Sends nothing more.
    pub fn end(&mut self) -> Played {
        Ok(self.stream()?.shutdown(Shutdown::Write)?)
    }

    /// Reads what has come, and says how the connection is then.
    pub fn take(&mut self, octets: &mut Vec<u8>) -> Result<&'static str, CaseFault> {
        let stream = self.stream()?;
        let mut buffer = [0; 4_096];
        for _ in 0..10_000 {
            match stream.read(&mut buffer) {
                Ok(0) => return Ok("ended"),
                Ok(count) => octets.extend_from_slice(&buffer[..count])?,
                Err(error) if error.kind() == ErrorKind::WouldBlock => return Ok("open"),
                Err(_) => return Ok("broken"),
            }
        }
        Ok("open")
    }
}

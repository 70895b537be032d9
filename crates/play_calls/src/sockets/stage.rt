//! A service, its log and its clock, and the clients.
use super::client::Client;
use super::log::Log;
use cases::{CaseFault, parsed};
use hall_desk::{Desk, Input, Stamp};
use hall_store::GroupStore;
use hall_types::Token;
use play_log::{arrival, place};
use serve_sockets::{Addresses, Service, Sockets, Source, Tick};
use std::net::{IpAddr, Ipv4Addr, SocketAddr, UdpSocket};

// How long, in milliseconds, a turn waits where nothing is known to be there.
const PAUSE: u64 = 10;

// How many places for connections a service has.
const PLACES: usize = 64;

// The maximum of milliseconds that go by before a turn is served.
const STEP: u64 = 100;

/// A clock that stands until it is moved.
#[derive(Clone, Copy)]
pub struct Clock {
    pub tick: Tick,
    /// Whether it gives no ticks.
    pub fails: bool,
    /// How many times it was asked how long a turn may wait.
    pub pauses: u64,
}

impl Source for Clock {
    fn tick(&mut self) -> Option<Tick> {
        if self.fails { None } else { Some(self.tick) }
    }

    fn pause(&mut self) -> u64 {
        self.pauses = self.pauses.saturating_add(1);
        PAUSE
    }
}

/// A service on loopback, and its clients.
#[derive(Drop)]
pub struct Stage<'a, S> {
    pub rt: &'a HostRuntime,
    pub service: Service<S>,
    pub log: Log,
    pub clock: Clock,
    pub clients: Vec<Client>,
    /// Sends datagrams.
    pub asker: UdpSocket,
    /// What the asker sent last.
    pub asked: Input,
}

// An address of loopback, with a port that the system picks. The asker's is another one than the clients', which may have the same port.
fn loopback(last: u8) -> SocketAddr {
    SocketAddr::new(IpAddr::V4(Ipv4Addr::new(127, 0, 0, last)), 0)
}

// A service over the store, on loopback.
fn service<S: GroupStore + Drop>(rt: &HostRuntime, store: S) -> Result<Service<S>, CaseFault> {
    let alloc = rt.alloc();
    let addresses = Addresses {
        discover: loopback(1),
        boot: loopback(1),
        http: loopback(1),
    };
    let desk = Desk::new(store, place(alloc)?);
    let sockets = Sockets::bind(rt, alloc, &addresses, PLACES).map_err(|_| CaseFault::Io)?;
    Ok(Service::new(alloc, desk, sockets))
}

// The clock at the moment 1000.
fn standing() -> Result<Clock, CaseFault> {
    Ok(Clock {
        tick: Tick {
            stamp: Stamp {
                moment: parsed("1000")?,
                fresh: Token::from([0; 16]),
            },
            millis: 0,
        },
        fails: false,
        pauses: 0,
    })
}

impl<'a, S: GroupStore + Drop> Stage<'a, S> {
    /// A service over the store. The moment is 1000.
    pub fn new(rt: &'a HostRuntime, store: S) -> Result<Stage<'a, S>, CaseFault> {
        let alloc = rt.alloc();
        let asker = UdpSocket::bind(rt, loopback(2))?;
        asker.set_nonblocking(true)?;
        let client = Client {
            name: String::from_str(alloc, "asker")?,
            address: asker.local_addr()?.to_string(alloc)?,
            stream: None,
        };
        Ok(Stage {
            rt,
            service: service(rt, store)?,
            log: Log::new(alloc),
            clock: standing()?,
            clients: Vec::from_array(alloc, [client])?,
            asker,
            asked: Input::Quiet,
        })
    }

    /// The service begins again over its desk and sockets.
    pub fn again(self) -> Stage<'a, S> {
        let (desk, sockets) = self.service.into_parts();
        Stage {
            service: Service::new(self.rt.alloc(), desk, sockets),
            ..self
        }
    }

    /// The last client of a name.
    pub fn client(&mut self, name: &str) -> Result<&mut Client, CaseFault> {
        let mut clients = self.clients.iter_mut().rev();
        let client = clients.find(|client| client.name.as_str() == name);
        client.ok_or(CaseFault::Form)
    }

    /// What comes by the words of an arrival. The clock is set to it.
    pub fn arrive(&mut self, words: &str) -> Result<Input, CaseFault> {
        let arrival = arrival(self.rt.alloc(), words)?;
        self.clock.tick.stamp = Stamp {
            moment: arrival.moment,
            fresh: arrival.fresh,
        };
        Ok(arrival.input)
    }

    /// Serves so many turns, or until the store is found shut: how many are left then.
    pub fn turns(&mut self, count: u64) -> Option<u64> {
        self.service
            .serve_turns(&mut self.clock, &mut self.log, count)
    }

    /// So many milliseconds go by, with a turn after each 100 of them and after the last.
    pub fn pass(&mut self, millis: u64) {
        for step in 0..millis.div_ceil(STEP) {
            let left = millis.saturating_sub(step.saturating_mul(STEP));
            let tick = &mut self.clock.tick;
            tick.millis = tick.millis.saturating_add(left.min(STEP));
            let _ = self.turns(1);
        }
    }

    /// Serves turns until 16 in a row moved nothing, and says whether it came to that.
    pub fn settle(&mut self) -> &'static str {
        self.log.still = 0;
        for _ in 0..10_000 {
            let _ = self.turns(1);
            if self.log.still >= 16 {
                return "settled";
            }
        }
        "unsettled"
    }

    /// Serves turns until a client's connection has ended or 100 turns in a row moved nothing: how its connection is then. What came to the
    /// client is added to the octets.
    pub fn drain(&mut self, name: &str, octets: &mut Vec<u8>) -> Result<&'static str, CaseFault> {
        self.log.still = 0;
        for _ in 0..10_000 {
            let state = self.client(name)?.take(octets)?;
            if state != "open" || self.log.still >= 100 {
                return Ok(state);
            }
            let _ = self.turns(1);
        }
        Err(CaseFault::Io)
    }
}

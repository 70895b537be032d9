//! The service: pages are served and desks asked, turn by turn.
use crate::asking::Asking;
use crate::clients::Clients;
use crate::clocks::Clocks;
use crate::fault::ServeFault;
use crate::service::Pages;
use crate::sockets::Sockets;
use crate::turn::Turn;
use crate::watch::Watch;
use hallview_state::State;
use std::net::SocketAddr;

// The milliseconds of a second.
const SECOND: u64 = 1_000;

// How long a turn waits at most, in milliseconds.
const LONGEST: u64 = 60_000;

/// What is shown.
#[derive(Drop)]
pub(crate) struct Viewing {
    pub(crate) state: State,
    /// What it needs to watch each hall, in the halls' order.
    pub(crate) watches: Vec<Watch>,
    /// The hosts that a request may name beside loopback's, without a port.
    pub(crate) names: Vec<String>,
    /// How often each desk is asked, in seconds.
    pub(crate) every: u64,
}

/// A service of pages.
#[derive(Drop)]
pub(crate) struct Server {
    sockets: Sockets,
    clients: Clients,
    asking: Asking,
    clocks: Clocks,
    /// Where it listens.
    pub(crate) address: SocketAddr,
    state: State,
    names: Vec<String>,
}

impl Server {
    /// Listens at an address, at which connections wait until the service begins. Port 0 is one that the system picks.
    ///
    /// # Errors
    ///
    /// `Bind` where the address can't be listened at, `Memory`, and others where the system gives no clock, no random octets or no way to
    /// wait for sockets.
    pub(crate) fn bind(
        rt: &HostRuntime,
        listen: SocketAddr,
        viewing: Viewing,
    ) -> Result<Server, ServeFault> {
        let Viewing {
            state,
            watches,
            names,
            every,
        } = viewing;
        let clocks = Clocks::start(rt).ok_or(ServeFault::Clock)?;
        let sockets = Sockets::new(rt, rt.alloc())?;
        let clients = Clients::bind(rt, &sockets, listen)?;
        let Ok(address) = clients.address() else {
            return Err(ServeFault::Bind(listen));
        };
        let asking = Asking::new(rt.alloc(), watches, every.saturating_mul(SECOND))?;
        Ok(Server {
            sockets,
            clients,
            asking,
            clocks,
            address,
            state,
            names,
        })
    }

    fn turn<'a>(&self, rt: &'a HostRuntime) -> Result<Turn<'a>, ServeFault> {
        match self.clocks.now(rt) {
            Some(now) => Ok(Turn {
                rt,
                clocks: self.clocks,
                now,
            }),
            None => Err(ServeFault::Clock),
        }
    }

    // Waits until something comes, or is to be done.
    fn wait(&mut self, now: u64) -> Result<(), ServeFault> {
        let least = self.clients.left(now, LONGEST);
        let least = self.asking.left(now, least);
        self.sockets.wait(least)
    }

    // Accepts connections, and serves those that may have something.
    fn serve_clients(&mut self, turn: Turn<'_>) {
        let now = turn.now.millis;
        let alloc = turn.rt.alloc();
        let mut pages = Pages {
            alloc,
            state: &self.state,
            names: self.names.as_slice(),
            now: turn.now.seconds,
            kept: self.clients.kept(),
        };
        self.clients.accept(alloc, &mut self.sockets, now);
        self.clients.step(&mut pages, &mut self.sockets, now);
        self.clients.close_late(&mut self.sockets, now);
    }

    // Goes on with the exchanges with desks.
    fn ask_desks(&mut self, turn: Turn<'_>) {
        let halls = self.state.halls.as_mut_slice();
        self.asking.step(turn, &mut self.sockets, halls);
        self.asking.end_late(turn, &mut self.sockets, halls);
        self.asking.begin_due(turn, &self.sockets, halls);
    }

    // Waits until something comes or is to be done, and does it.
    fn serve_turn(&mut self, rt: &HostRuntime) -> Result<(), ServeFault> {
        let before = self.turn(rt)?;
        self.wait(before.now.millis)?;
        let turn = self.turn(rt)?;
        self.serve_clients(turn);
        self.ask_desks(turn);
        Ok(())
    }

    /// Serves pages and asks desks. No client and no desk ends it.
    ///
    /// # Errors
    ///
    /// `Clock` or `Wait` where the system gives no clock, or can't wait for sockets, any more.
    pub(crate) fn serve(&mut self, rt: &HostRuntime) -> Result<(), ServeFault> {
        for _ in 0..u64::MAX {
            self.serve_turn(rt)?;
        }
        Ok(())
    }
}

//! The desks of all halls are asked for their machines, each at its times, and few at once. Moments and times are milliseconds.
ghost use Rattle.std.specs.Prelude.{◌<◌};

use crate::dues::Dues;
use crate::exchange::{Exchange, Progress};
use crate::exchanges::Exchanges;
use crate::schedule::{pause, retry_pause, seconds_of};
use crate::seats::{MAX_EXCHANGES, exchange_seat};
use crate::sockets::Sockets;
use crate::taking::take;
use crate::times::until;
use crate::turn::Turn;
use crate::watch::{Watch, is_down};
use hallview_state::{Hall, Loss};
use mio::net::TcpStream;
use std::alloc::{AllocError, Global};
use std::net::SocketAddr;

/// The maximum of desks that are down and are asked at once, so that others needn't wait for them.
const MAX_DOWN: usize = 4;

/// The halls that are watched, and the exchanges with their desks that are under way.
#[derive(Drop)]
pub(crate) struct Asking {
    watches: Vec<Watch>,
    dues: Dues,
    // How long it is from one time that a desk is asked to the next, if it answers soon.
    wished: u64,
    exchanges: Exchanges,
    // The resolver isn't asked before: it rests as long as its last answer took, since it is waited for.
    resolver_at: u64,
}

// A connection that is begun to an address.
fn connected(
    rt: &HostRuntime,
    sockets: &Sockets,
    slot: usize,
    address: SocketAddr,
) -> Option<TcpStream>
    requires { slot < 8 }
{
    let mut stream = TcpStream::connect(rt, address).ok()?;
    sockets.register(&mut stream, exchange_seat(slot)).ok()?;
    Some(stream)
}

impl Asking {
    /// No desk was asked yet. Each is asked so often.
    pub(crate) fn new(
        alloc: Global,
        watches: Vec<Watch>,
        wished: u64,
    ) -> Result<Asking, AllocError> {
        let dues = Dues::new(alloc, wished, watches.len())?;
        Ok(Asking {
            watches,
            dues,
            wished,
            exchanges: Exchanges::new(alloc)?,
            resolver_at: 0,
        })
    }

    // Whether a desk that is down may be asked beside those that are asked.
    fn may_ask_down(&self) -> bool {
        self.exchanges.count_down(self.watches.as_slice()) < MAX_DOWN
    }

    // A connection that is begun to the first of a desk's addresses to which one can be, of those after so many.
    fn connect(
        &self,
        turn: Turn<'_>,
        sockets: &Sockets,
        slot: usize,
        place: usize,
        tried: usize,
    ) -> Option<(TcpStream, usize)>
        requires { slot < 8 }
    {
        let watch = self.watches.get(place)?;
        for tried in tried..watch.addresses.count() {
            let address = watch.addresses.after(tried)?;
            if let Some(stream) = connected(turn.rt, sockets, slot, address) {
                return Some((stream, tried));
            }
        }
        None
    }

    // Asks the resolver for a desk's addresses, if that is to be done, and says whether the desk has to wait for it.
    fn waits_for_resolver(&mut self, turn: Turn<'_>, place: usize) -> bool {
        let now = turn.now.millis;
        let Some(watch) = self.watches.get_mut(place) else {
            return false;
        };
        if !watch.addresses.are_to_be_found(now) {
            return false;
        }
        if now < self.resolver_at {
            return true;
        }
        watch.find(turn.rt, now);
        let after = turn.later();
        self.resolver_at = after.saturating_add(until(now, after));
        false
    }

    // Why there is no connection to a desk.
    fn unconnected(&self, place: usize) -> Loss {
        match self.watches.get(place) {
            Some(watch) if watch.addresses.count() > 0 => Loss::NoConnection,
            _ => Loss::NoAddress,
        }
    }

    // Begins to ask a hall's desk.
    fn begin(
        &mut self,
        turn: Turn<'_>,
        sockets: &Sockets,
        halls: &mut [Hall],
        slot: usize,
        place: usize,
    )
        requires { slot < 8 }
    {
        if self.waits_for_resolver(turn, place) {
            let is_down = is_down(self.watches.as_slice(), place);
            self.dues.set(place, is_down, self.resolver_at);
            return;
        }
        let begun = turn.later();
        match self.connect(turn, sockets, slot, place, 0) {
            Some((stream, tried)) => {
                let exchange = Exchange::new(turn.rt.alloc(), place, stream, tried, begun);
                self.exchanges.set(slot, exchange);
                self.dues.hold(place);
            }
            None => {
                let loss = self.unconnected(place);
                self.lose(halls, place, loss, begun, 0);
            }
        }
    }

    /// Begins to ask the desks whose time has come, as far as others aren't asked.
    pub(crate) fn begin_due(&mut self, turn: Turn<'_>, sockets: &Sockets, halls: &mut [Hall]) {
        for slot in 0..MAX_EXCHANGES {
            if self.exchanges.is_free(slot) {
                let may_be_down = self.may_ask_down();
                let Some(place) = self.dues.next(turn.now.millis, may_be_down) else {
                    return;
                };
                self.begin(turn, sockets, halls, slot, place);
            }
        }
    }

    // Has a hall know that its desk gave no answer, which was asked at a moment, for so long.
    fn lose(&mut self, halls: &mut [Hall], place: usize, loss: Loss, begun: u64, took: u64) {
        let pause = retry_pause(self.wished, took);
        if let Some(watch) = self.watches.get_mut(place) {
            watch.addresses.failed();
            watch.is_down = true;
        }
        if let Some(hall) = halls.get_mut(place) {
            hall.lose(loss);
            hall.every = seconds_of(pause);
        }
        self.dues.set_again(place, true, begun, pause);
    }

    // Has a hall take its desk's answer. The time that reading it takes counts too.
    fn take(&mut self, turn: Turn<'_>, halls: &mut [Hall], exchange: Exchange) {
        let (place, begun) = (exchange.hall, exchange.begun);
        let took = until(begun, turn.now.millis);
        let (Some(hall), Some(watch)) = (halls.get_mut(place), self.watches.get_mut(place)) else {
            return;
        };
        watch.addresses.answered(exchange.tried);
        take(
            turn.rt.alloc(),
            hall,
            exchange.answer,
            turn.now.seconds,
            took,
        );
        watch.is_down = !hall.is_up();
        let pause = pause(self.wished, until(begun, turn.later()));
        hall.every = seconds_of(pause);
        self.dues.set_again(place, watch.is_down, begun, pause);
    }

    // Goes on at the next address of a desk.
    fn try_next(
        &mut self,
        turn: Turn<'_>,
        sockets: &Sockets,
        halls: &mut [Hall],
        slot: usize,
        mut exchange: Exchange,
    )
        requires { slot < 8 }
    {
        let (place, begun, now) = (exchange.hall, exchange.begun, turn.now.millis);
        let tried = exchange.tried.saturating_add(1);
        match self.connect(turn, sockets, slot, place, tried) {
            Some((stream, tried)) => {
                exchange.reconnect(stream, tried, now);
                self.exchanges.set(slot, exchange);
            }
            None => self.lose(halls, place, Loss::NoConnection, begun, until(begun, now)),
        }
    }

    // Ends the exchange in a slot, or goes on at the next address.
    fn end(
        &mut self,
        turn: Turn<'_>,
        sockets: &mut Sockets,
        halls: &mut [Hall],
        slot: usize,
        progress: Progress,
    )
        requires { slot < 8 }
    {
        sockets.marks.clear(exchange_seat(slot));
        let Some(exchange) = self.exchanges.take(slot) else {
            return;
        };
        match progress {
            Progress::Whole => self.take(turn, halls, exchange),
            Progress::Lost(loss) => {
                let took = until(exchange.begun, turn.now.millis);
                self.lose(halls, exchange.hall, loss, exchange.begun, took);
            }
            _ => self.try_next(turn, sockets, halls, slot, exchange),
        }
    }

    // Does what a step of the exchange in a slot asks for.
    fn settle(
        &mut self,
        turn: Turn<'_>,
        sockets: &mut Sockets,
        halls: &mut [Hall],
        slot: usize,
        progress: Progress,
    )
        requires { slot < 8 }
    {
        match progress {
            Progress::Moved => (),
            Progress::Waits => sockets.marks.clear(exchange_seat(slot)),
            _ => self.end(turn, sockets, halls, slot, progress),
        }
    }

    /// Takes a step of each exchange whose desk may have given something.
    pub(crate) fn step(&mut self, turn: Turn<'_>, sockets: &mut Sockets, halls: &mut [Hall]) {
        for slot in 0..MAX_EXCHANGES {
            if sockets.marks.is_marked(exchange_seat(slot)) {
                let watches = self.watches.as_slice();
                let progress = self.exchanges.step(slot, watches, turn.now.millis);
                self.settle(turn, sockets, halls, slot, progress);
            }
        }
    }

    /// Ends each exchange that has taken too long.
    pub(crate) fn end_late(&mut self, turn: Turn<'_>, sockets: &mut Sockets, halls: &mut [Hall]) {
        for slot in 0..MAX_EXCHANGES {
            if let Some(progress) = self.exchanges.late_end(slot, turn.now.millis) {
                self.settle(turn, sockets, halls, slot, progress);
            }
        }
    }

    /// The time until there is something to do though nothing comes, and at most this time.
    pub(crate) fn left(&self, now: u64, most: u64) -> u64 {
        match self.exchanges.left(now, most) {
            (least, true) => self.dues.left(now, self.may_ask_down(), least),
            (least, false) => least,
        }
    }
}

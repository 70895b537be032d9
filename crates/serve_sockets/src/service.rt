//! Turns.
ghost use Rattle.std.specs.Prelude.{◌≡◌, ◌<◌, ◌&&◌, ◌||◌};
ghost use Rattle.serve_sockets.specs.Turn.{is_unavailable};

use crate::gathering::{Client, Gathered};
use crate::handing::Server;
use crate::handover::{handover, is_unavailable};
use crate::replying::{Datagram, Way, reply};
use crate::ring::Origin;
use crate::serving::{Now, Step, advance, give, hand_request};
use crate::sockets::{SHORT_PAUSE, Sockets};
use crate::turn::{Handover, Kind, Said, Source, Tick, Turn, TurnLog};
use hall_desk::{Account, Answer, Answered, Arrival, Desk, Stamp, What, histories_keep_the_laws};
use hall_store::{GroupStore, HallStore};
use hall_types::{Moment, Port};
use std::alloc::{AllocError, Global};
use std::collections::VecDeque;

/// A desk, and the sockets at which it is reached. Contracts see the desk, and how many turns there were since the last
/// eighth one.
#[derive(Drop)]
pub struct Service<S> {
    server: Server<S>,
    sockets: Sockets,
    turns: u8,
    // No quiet moment since the desk's file was opened has left each machine as it was.
    is_opening: bool,
    // The last quiet moment, if there was one, changed a machine's status, so that more may be overdue.
    may_be_due: bool,
    // Something that was handed over counts as not having come, and no quiet moment came since: it is looked whether the store is shut
    // before any other client is told so.
    is_in_doubt: bool,
    // The log was told that there are no ticks, and none came since.
    is_unstamped: bool,
    ghost few: { turns < 8 },
}

// Whether a service begins by another quiet moment after one.
fn is_still_opening(is_opening: bool, moved: bool, answer: &Answer) -> bool
    ensures { result ≡ is_opening && (moved || is_unavailable answer.now) }
{
    is_opening && (moved || is_unavailable(answer))
}

// Tells the log of an arrival, if there is one: its moment, or else this one.
fn tell<L: TurnLog>(
    log: &mut L,
    told: Option<(&Arrival, &Account)>,
    answer: &Answer,
    moment: Moment,
) -> Moment {
    let Some((arrival, account)) = told else {
        return moment;
    };
    log.arrived(arrival.input.what(), answer, account);
    arrival.moment
}

impl<S: HallStore> Service<S> {
    ghost use Rattle.std.specs.Prelude.{◌≡◌, ◌≢◌, ◌<◌, ◌≤◌, length, true, false};
    ghost use Rattle.hall_desk.specs.Desk.{site_of, store_of};
    ghost use Rattle.serve_sockets.specs.{Gathering.{AreApart, AreBack, AreGiven, AreOut, OthersStay}, Own.IsGivenIn, Service.{IsPaced, connections_of, desk_of, is_opening_of, sockets_of, turns_of}, Sockets.places_of, Stamps.IsPassed, Turn.{IsHandedAlone, IsTurn, KeepsDesk}};

    /// The service of a desk. It begins by quiet moments.
    pub fn new(alloc: Global, desk: Desk<S>, sockets: Sockets) -> Service<S>
        ensures desk { desk_of result ≡ desk }
        ensures turns { turns_of result ≡ 0 }
        ensures opening { is_opening_of result ≡ true }
    {
        Service {
            server: Server { alloc, desk },
            sockets,
            turns: 0,
            is_opening: true,
            may_be_due: true,
            is_in_doubt: false,
            is_unstamped: false,
        }
    }

    /// The sockets.
    pub fn sockets(&self) -> &Sockets {
        &self.sockets
    }

    /// The desk, and the sockets with the connections that are open.
    pub fn into_parts(self) -> (Desk<S>, Sockets)
        ensures desk { result.0 ≡ desk_of self }
        ensures sockets { result.1 ≡ sockets_of self }
    {
        (self.server.desk, self.sockets)
    }

    // Waits for something to come, if nothing is known to be there: for the source's pause at most, and not at all where machines may be
    // overdue.
    fn wait<C: Source>(&mut self, source: &mut C)
        ensures desk { desk_of self.new ≡ desk_of self.old }
        ensures source { IsPassed C.Source.may_give source.old source.new }
        ensures connections { connections_of self.new ≡ connections_of self.old }
        ensures turns { turns_of self.new ≡ turns_of self.old }
        ensures opening { is_opening_of self.new ≡ is_opening_of self.old }
    {
        if self.may_be_due {
            self.sockets.look(0);
        } else {
            self.sockets.wait(source);
        }
    }

    // Serves the next seat that may have something: a socket for datagrams, the listener or a connection, from the last
    // one on, up and round. Every eighth turn, and one for which there is no such seat, is a quiet moment. Nothing is
    // waited for.
    //
    // Each turn is a quiet moment until the first one that the store carries out and that changes no machine's status: so no machine that
    // is overdue when the service begins is given work. One that is Unavailable ends that for none.
    //
    // At most one arrival is handed to the desk, with the moment and the fresh octets of the stamp. A datagram's answer is
    // sent to where the datagram came from. A request that is decided waits until `serve_turns` hands it over with others, but for one
    // that asks for a list; its answer waits until the client takes it. A datagram leaves the hall of a
    // desk that enlists none as it is, and what a stop may leave. The log is told of the arrival; the turn isn't noted.
    fn turn<L: TurnLog>(&mut self, stamp: Stamp, log: &mut L) -> Turn
        ensures desk { IsTurn S.HallStore (desk_of self.old) (desk_of self.new) (connections_of self.old) (connections_of self.new) stamp result }
        ensures pace { IsPaced self.old self.new result }
    {
        self.turns = (self.turns + 1) % 8;
        if self.is_quiet_turn() {
            return Turn::Handed(self.quiet(stamp, log));
        }
        if let Some(turn) = self.sockets.close_late() {
            return turn;
        }
        match self.sockets.pick() {
            None => Turn::Handed(self.quiet(stamp, log)),
            Some(Origin::Port(port)) => self.datagram(port, stamp, log),
            Some(Origin::Listener) => self.sockets.accept(self.server.alloc),
            Some(Origin::Connection(slot)) => self.connection(slot, stamp, log),
        }
    }

    // Whether the turn is a quiet moment, whatever else may be there.
    fn is_quiet_turn(&self) -> bool
        ensures opening { result ≡ false → is_opening_of self.now ≡ false }
        ensures eighth { result ≡ false → turns_of self.now ≢ 0 }
    {
        self.is_opening || self.is_in_doubt || self.turns == 0
    }

    // Nothing came.
    fn quiet<L: TurnLog>(&mut self, stamp: Stamp, log: &mut L) -> Handover
        ensures desk { IsTurn S.HallStore (desk_of self.old) (desk_of self.new) (connections_of self.old) (connections_of self.new) stamp (Turn.Handed result) }
        ensures kind { result.kind ≡ Kind.Quiet }
        ensures turns { turns_of self.new ≡ turns_of self.old }
        ensures opened { is_opening_of self.old ≡ false → is_opening_of self.new ≡ false }
        ensures shut { result.said ≡ Said.Unavailable → is_opening_of self.new ≡ is_opening_of self.old }
    {
        self.sockets.retry();
        let answered = self.server.desk.answer_quiet(self.server.alloc, stamp);
        let (answer, account) = answered;
        log.arrived(What::Quiet, &answer, &account);
        let moved = account.notes.moved.is_some();
        drop(account);
        self.is_in_doubt = false;
        self.may_be_due = moved;
        self.is_opening = is_still_opening(self.is_opening, moved, &answer);
        handover(Kind::Quiet, None, 0, &answer)
    }

    // Receives a datagram, and sends its answer to where it came from.
    fn datagram<L: TurnLog>(&mut self, port: Port, stamp: Stamp, log: &mut L) -> Turn
        ensures desk { IsTurn S.HallStore (desk_of self.old) (desk_of self.new) (connections_of self.old) (connections_of self.new) stamp result }
        ensures turns { turns_of self.new ≡ turns_of self.old }
        ensures opening { is_opening_of self.new ≡ is_opening_of self.old }
    {
        let (len, client) = match self.sockets.receive(port) {
            Ok(received) => received,
            Err(turn) => return turn,
        };
        let datagram = Datagram {
            way: Way { port, client },
            octets: &self.sockets.buffer.as_slice()[..len],
        };
        let ports = &mut self.sockets.ports;
        let (handover, is_sent) = reply(&mut self.server, log, stamp, datagram, ports);
        if is_sent {
            Turn::Handed(handover)
        } else {
            Turn::Unsent(handover)
        }
    }

    // Has a connection go on by one step.
    fn connection<L: TurnLog>(&mut self, slot: usize, stamp: Stamp, log: &mut L) -> Turn
        requires { slot < places_of (sockets_of self.old) }
        ensures desk { IsTurn S.HallStore (desk_of self.old) (desk_of self.new) (connections_of self.old) (connections_of self.new) stamp result }
        ensures turns { turns_of self.new ≡ turns_of self.old }
        ensures opening { is_opening_of self.new ≡ is_opening_of self.old }
    {
        let Some(mut connection) = self.sockets.take(slot) else {
            self.sockets.rest(Origin::Connection(slot));
            return Turn::Nothing;
        };
        let now = Now {
            stamp,
            served: self.sockets.now(),
        };
        let buffer = self.sockets.buffer.as_mut_slice();
        let step = advance(&mut connection, &mut self.server, log, now, buffer);
        self.sockets.settle(slot, connection, step)
    }

    // There is no tick: nothing is done for a while. The log is told when that begins.
    fn miss<L: TurnLog>(&mut self, log: &mut L)
        ensures desk { desk_of self.new ≡ desk_of self.old }
        ensures connections { connections_of self.new ≡ connections_of self.old }
        ensures turns { turns_of self.new ≡ turns_of self.old }
        ensures opening { is_opening_of self.new ≡ is_opening_of self.old }
    {
        if !self.is_unstamped {
            self.is_unstamped = true;
            log.unstamped();
        }
        self.sockets.stand_still(SHORT_PAUSE);
    }

    // Hands over the request that waits alone.
    fn hand_alone<L: TurnLog>(&mut self, stamp: Stamp, log: &mut L)
        ensures kept { KeepsDesk S.HallStore (desk_of self.old) (desk_of self.new) }
        ensures handed { S.HallStore.is_clean (store_of (desk_of self.new))
            → IsHandedAlone S.HallStore (store_of (desk_of self.old)) (store_of (desk_of self.new)) (site_of (desk_of self.old)) (connections_of self.old) (connections_of self.new) stamp }
    {
        let Some(client) = self.sockets.next_whole() else {
            return;
        };
        let slot = client.slot;
        let mut connection = client.connection;
        let moment = stamp.moment;
        let served = self.sockets.now();
        let now = Now { stamp, served };
        let handover = hand_request(&mut connection, &mut self.server, log, now);
        let turn = self
            .sockets
            .settle(slot, connection, Step::Handed(handover));
        self.is_in_doubt |= turn.is_refused();
        log.note(moment, &turn);
    }

    // Has a client's answer wait until it takes it.
    fn answer_client<L: TurnLog>(
        &mut self,
        moment: Moment,
        client: Client,
        answer: Answer,
        log: &mut L,
    )
        requires { client.slot < places_of (sockets_of self.old) }
        ensures desk { desk_of self.new ≡ desk_of self.old }
        ensures given { IsGivenIn (connections_of self.old) (connections_of self.new) client.slot client.connection answer }
    {
        let slot = client.slot;
        let mut connection = client.connection;
        let served = self.sockets.now();
        let handover = give(&mut connection, answer, served);
        let turn = self
            .sockets
            .settle(slot, connection, Step::Handed(handover));
        log.note(moment, &turn);
    }

    // Has the requests of clients wait on, in their order and before the others.
    fn put_all_back(&mut self, clients: VecDeque<Client>)
        requires out { AreOut (connections_of self.old) clients.items }
        requires apart { AreApart clients.items }
        ensures desk { desk_of self.new ≡ desk_of self.old }
        ensures back { AreBack (connections_of self.new) clients.items }
        ensures others { OthersStay clients.items (connections_of self.old) (connections_of self.new) }
    {
        let mut clients = clients;
        'clients: for index in 0..clients.len() {
            let Some(client) = clients.pop_back() else {
                unreachable!();
            };
            self.sockets.put_back(client);
        }
    }

    // Gives the first clients their answers, and has the others wait on.
    fn give_first<L: TurnLog>(
        &mut self,
        mut moment: Moment,
        gathered: Gathered,
        answered: Answered,
        log: &mut L,
    )
        requires out { AreOut (connections_of self.old) gathered.clients.items }
        requires apart { AreApart gathered.clients.items }
        requires few { length answered.answers.items ≤ length gathered.clients.items }
        ensures desk { desk_of self.new ≡ desk_of self.old }
        ensures given { AreGiven (connections_of self.new) gathered.clients.items answered.answers.items }
        ensures others { OthersStay gathered.clients.items (connections_of self.old) (connections_of self.new) }
    {
        let Gathered {
            arrivals,
            mut clients,
        } = gathered;
        let Answered { answers, accounts } = answered;
        let mut told = arrivals.iter().zip(accounts.iter());
        'answers: for answer in answers {
            moment = tell(log, told.next(), &answer, moment);
            let Some(client) = clients.pop_front() else {
                unreachable!();
            };
            self.answer_client(moment, client, answer, log);
        }
        self.put_all_back(clients);
    }
}

impl<S: GroupStore> Service<S> {
    ghost use Rattle.std.specs.Prelude.{◌≡◌, ◌<◌, ◌-◌, ◌*◌, IfSome, Some, length, unwrap_or};
    ghost use Rattle.hall_desk.specs.Desk.{site_of, store_of};
    ghost use Rattle.serve_sockets.specs.{Gathering.{AreApart, AreHanded, AreOf, AreOut}, Service.{connections_of, desk_of, sockets_of}, Sockets.alone_in, Turn.{AreServed, KeepsDesk, WentOn}};

    // Hands over gathered requests, and gives each client that is answered its answer. Where none could be answered together, each is handed
    // over alone next.
    fn hand_gathered<L: TurnLog>(&mut self, moment: Moment, gathered: Gathered, log: &mut L)
        requires some { 0 < length gathered.arrivals.items }
        requires paired { AreOf gathered.clients.items gathered.arrivals.items }
        requires out { AreOut (connections_of self.old) gathered.clients.items }
        requires apart { AreApart gathered.clients.items }
        ensures kept { KeepsDesk S.HallStore (desk_of self.old) (desk_of self.new) }
        ensures handed { S.HallStore.is_clean (store_of (desk_of self.new))
            → AreHanded S.HallStore (store_of (desk_of self.old)) (store_of (desk_of self.new)) (site_of (desk_of self.old)) gathered (connections_of self.old) (connections_of self.new) (alone_in (sockets_of self.new)) }
    {
        match self.server.hand_group(gathered.arrivals.as_slice()) {
            Ok(answered) => self.give_first(moment, gathered, answered, log),
            Err(_) => {
                let count = gathered.clients.len();
                self.put_all_back(gathered.clients);
                self.sockets.separate(count);
                self.is_in_doubt = true;
            }
        }
    }

    // Whether the requests that wait are to be handed over now.
    fn is_group_due(&self) -> bool {
        !self.is_opening && !self.is_in_doubt && self.sockets.is_group_due()
    }

    // Hands over the requests that wait: one with this tick's stamp, or several, each with a stamp of its own, if there is memory for them.
    fn hand_waiting<C: Source, L: TurnLog>(&mut self, tick: Tick, source: &mut C, log: &mut L)
        ensures kept { KeepsDesk S.HallStore (desk_of self.old) (desk_of self.new) }
        ensures served { (from : C) → C.Source.may_give from (Some tick) source.old → S.HallStore.is_clean (store_of (desk_of self.new))
            → AreServed S.HallStore C.Source.may_give (store_of (desk_of self.old)) (store_of (desk_of self.new)) from source.new (site_of (desk_of self.old)) 64 (connections_of self.old) (connections_of self.new) }
    {
        self.sockets.hand();
        if self.sockets.has_lone() {
            return self.hand_alone(tick.stamp, log);
        }
        match self.sockets.gather(self.server.alloc, source) {
            Ok(gathered) if gathered.arrivals.is_empty() => self.hand_alone(tick.stamp, log),
            Ok(gathered) => self.hand_gathered(tick.stamp.moment, gathered, log),
            Err(AllocError) => self.hand_alone(tick.stamp, log),
        }
    }

    // Serves one turn with a tick of the source, if it has one, and says whether it found the store shut. Requests that wait are handed
    // over in place of a turn, or as soon as its own request is decided.
    fn serve_turn<C: Source, L: TurnLog>(&mut self, source: &mut C, log: &mut L) -> bool
        ensures kept { KeepsDesk S.HallStore (desk_of self.old) (desk_of self.new) }
        ensures served { S.HallStore.is_clean (store_of (desk_of self.new)) → AreServed S.HallStore C.Source.may_give
            (store_of (desk_of self.old)) (store_of (desk_of self.new)) source.old source.new (site_of (desk_of self.old)) 64 (connections_of self.old) (connections_of self.new) }
    {
        self.wait(source);
        let Some(tick) = source.tick() else {
            self.miss(log);
            return false;
        };
        self.is_unstamped = false;
        self.sockets.begin(tick.millis);
        if self.is_group_due() {
            self.hand_waiting(tick, source, log);
            return false;
        }
        let turn = self.turn(tick.stamp, log);
        self.is_in_doubt |= turn.is_refused();
        if turn.is_decided() && self.is_group_due() {
            self.hand_waiting(tick, source, log);
            return false;
        }
        log.note(tick.stamp.moment, &turn);
        turn.finds_shut()
    }

    /// Serves so many turns, each with a tick of the source, and tells each to the log; or ends after the first quiet moment for
    /// which the store is unavailable, as one is that a fault has shut: how many turns are left then. A turn without a tick does
    /// nothing for 100 milliseconds, and the log is told when such turns begin.
    ///
    /// Every eighth turn, and one for which nothing is there, is a quiet moment; so is each until the first one that the store carries out
    /// and that changes no machine's status: no machine that is overdue when the service begins is given work.
    ///
    /// A turn may be one at which requests that wait are handed over, 64 at most, and answered by one commit, each with a stamp of its own:
    /// as soon as nothing else is known to be there, or the first one has waited as long as the last commit took. One that waits alone is
    /// answered by itself. The log is told of each.
    ///
    /// With all that came to the hall since it was new, it is a history that keeps all laws. A stop leaves, of a store that was settled, the
    /// hall after some of the arrivals, or after some more whose answers weren't given.
    pub fn serve_turns<C: Source, L: TurnLog>(
        &mut self,
        source: &mut C,
        log: &mut L,
        turns: u64,
    ) -> Option<u64>
        ensures left { IfSome result (λ left. left < turns) }
        ensures kept { KeepsDesk S.HallStore (desk_of self.old) (desk_of self.new) }
        ensures went_on { S.HallStore.is_clean (store_of (desk_of self.new)) → WentOn S.HallStore C.Source.may_give
            (store_of (desk_of self.old)) (store_of (desk_of self.new)) source.old source.new (site_of (desk_of self.old)) (64 * (turns - unwrap_or result 0)) (connections_of self.old) (connections_of self.new) }
    {
        histories_keep_the_laws();
        for served in 0..turns {
            if self.serve_turn(source, log) {
                return Some(turns - served - 1);
            }
        }
        None
    }
}

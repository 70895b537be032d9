//! What is known of one hall.
ghost use Rattle.std.specs.Prelude.{◌≡◌, is_none, option_map, IsSome, IsTrue, None, OnErr, OnOk, Some};
ghost use Rattle.hallview_state.specs.{Age.{is_old, is_stale}, Lists.IsListOf, Received.body_of, Taken.{Follows, IsTaken, Renews, Stays, machines_of, newest}};

use crate::history::{Sample, add_sample};
use crate::list::List;
use crate::listed::Listed;
use crate::loss::Loss;
use crate::moves::{Move, moves_between};
use crate::orders::{Seen, orders_of, seen_at};
use crate::reading::list_of;
use crate::received::Received;
use crate::ways::Ways;
use hall_types::{Name, Number, Refusal};
use hallctl_texts::value_of;
use serde_json::Value;
use std::alloc::{AllocError, Global};

// How many moves of a hall are kept.
const MAX_MOVES: usize = 65_536;

/// What is known of a hall.
#[derive(Drop)]
pub struct Hall {
    pub name: Name,
    /// The desk's URL.
    pub desk: String,
    /// How often the desk is asked for now, in seconds.
    pub every: u64,
    /// Why the last answer was no list, if it was none.
    pub loss: Option<Loss>,
    pub list: Option<List>,
    /// Moves that were seen, the oldest first; at most 65,536.
    pub moves: Vec<Move>,
    pub ways: Ways,
    /// The orders that machines wait for, by number.
    pub orders: Vec<Seen>,
    /// Samples of the last day, the oldest first.
    pub history: Vec<Sample>,
}

fn is_old(now: u64, every: u64, at: u64) -> bool
    ensures { result ≡ is_old now every at }
{
    now.saturating_sub(at) > every.saturating_mul(3).max(30)
}

// Why an answer is no list: the refusal that it names, if it names one.
fn loss_of(alloc: Global, body: &str) -> Result<Loss, AllocError> {
    let Some(value) = value_of(alloc, body.as_bytes())? else {
        return Ok(Loss::NotTheDesk);
    };
    let Some(Value::String(name)) = value.get("refusal") else {
        return Ok(Loss::NotTheDesk);
    };
    match name.as_str().parse::<Refusal>() {
        Ok(refusal) => Ok(Loss::Refused(refusal)),
        Err(_) => Ok(Loss::NotTheDesk),
    }
}

// Takes out the oldest moves beyond those that are kept.
fn keep_newest(moves: &mut Vec<Move>)
    ensures { moves.new.items ≡ newest moves.old.items }
{
    let len = moves.len();
    if len > MAX_MOVES {
        moves.drain(..len - MAX_MOVES);
    }
}

impl Hall {
    /// A hall whose desk wasn't asked yet.
    pub fn new(alloc: Global, name: Name, desk: &str, every: u64) -> Result<Hall, AllocError> {
        Ok(Hall {
            name,
            desk: String::from_str(alloc, desk)?,
            every,
            loss: Some(Loss::NotYet),
            list: None,
            moves: Vec::new(alloc),
            ways: Ways::new(),
            orders: Vec::new(alloc),
            history: Vec::new(alloc),
        })
    }

    /// Whether the last answer was a list.
    pub fn is_up(&self) -> bool
        ensures { result ≡ is_none self.now.loss }
    {
        self.loss.is_none()
    }

    /// When the last list came, if there is one.
    pub fn listed_at(&self) -> Option<u64>
        ensures { result ≡ option_map (λ list. list.at) self.now.list }
    {
        match &self.list {
            Some(list) => Some(list.at),
            None => None,
        }
    }

    /// Whether what is shown of the hall may be wrong by now: its last answer was no list, or wasn't renewed in time.
    pub fn is_stale(&self, now: u64) -> bool
        ensures { result ≡ is_stale now self.now.every (is_none self.now.loss) (option_map (λ list. list.at) self.now.list) }
    {
        match self.listed_at() {
            Some(at) if self.is_up() => is_old(now, self.every, at),
            _ => true,
        }
    }

    /// The machines of the last list.
    pub fn machines(&self) -> &[Listed]
        ensures { result.now ≡ machines_of self.now }
    {
        match &self.list {
            Some(list) => list.machines.as_slice(),
            None => &[],
        }
    }

    /// For how many seconds the order with this number was seen in lists, up to the last one.
    pub fn order_waits(&self, number: Number) -> u64 {
        match (seen_at(self.orders.as_slice(), number), self.listed_at()) {
            (Some(seen), Some(last)) => last.saturating_sub(seen),
            _ => 0,
        }
    }

    // Takes another list than the last one: as a whole, or not at all.
    fn set_list(&mut self, alloc: Global, list: List) -> Result<(), AllocError>
        ensures follows { OnOk result (Follows self.old self.new list.machines.items list.at list.took) }
        ensures stays { OnErr result (Stays self.old self.new) }
    {
        let machines = list.machines.as_slice();
        let moves = moves_between(alloc, self.machines(), machines, list.at)?;
        let orders = orders_of(alloc, self.orders.as_slice(), machines, list.at)?;
        self.history.reserve(1)?;
        self.moves.extend_from_slice(moves.as_slice())?;
        keep_newest(&mut self.moves);
        self.ways.add_all(moves.as_slice());
        add_sample(&mut self.history, machines, list.at);
        self.orders = orders;
        self.list = Some(list);
        self.loss = None;
        Ok(())
    }

    // Whether the last list was the very same answer.
    fn has_list_of(&self, received: &Received) -> bool
        ensures { IsTrue result → IsSome self.now.list × IsListOf (machines_of self.now) received.now.status (body_of received.now) }
    {
        match &self.list {
            Some(list) => list.is_of(received),
            None => false,
        }
    }

    // Takes it that the last list has come again.
    fn renew(&mut self, now: u64, took: u64) -> Result<(), AllocError>
        requires { IsSome self.old.list }
        ensures renews { OnOk result (Renews self.old self.new now took) }
        ensures stays { OnErr result (Stays self.old self.new) }
    {
        self.history.reserve(1)?;
        let Some(list) = &mut self.list else {
            unreachable!();
        };
        list.at = now;
        list.took = took;
        add_sample(&mut self.history, list.machines.as_slice(), now);
        self.loss = None;
        Ok(())
    }

    // Takes an answer that isn't that of the last list.
    fn read(
        &mut self,
        alloc: Global,
        received: Received,
        now: u64,
        took: u64,
    ) -> Result<(), AllocError>
        ensures taken { OnOk result (IsTaken self.old self.new received.status (body_of received) now took) }
        ensures stays { OnErr result (Stays self.old self.new) }
    {
        let Ok(text) = std::str::from_utf8(received.body()) else {
            self.loss = Some(Loss::NotTheDesk);
            return Ok(());
        };
        match list_of(alloc, received.status, text)? {
            Some(machines) => self.set_list(
                alloc,
                List {
                    at: now,
                    took,
                    machines,
                    answer: received,
                },
            ),
            None => {
                self.loss = Some(loss_of(alloc, text)?);
                Ok(())
            }
        }
    }

    fn try_to_take(
        &mut self,
        alloc: Global,
        received: Received,
        now: u64,
        took: u64,
    ) -> Result<(), AllocError>
        ensures taken { OnOk result (IsTaken self.old self.new received.status (body_of received) now took) }
        ensures stays { OnErr result (Stays self.old self.new) }
    {
        if self.has_list_of(&received) {
            self.renew(now, took)
        } else {
            self.read(alloc, received, now, took)
        }
    }

    /// Takes a desk's answer to `GET /machines`, which came at a moment after so many milliseconds. What isn't a list leaves the last one,
    /// and so does one for which memory is wanting. The same answer as the last list's isn't read again.
    pub fn take(&mut self, alloc: Global, received: Received, now: u64, took: u64)
        ensures { IsTaken self.old self.new received.status (body_of received) now took }
    {
        match self.try_to_take(alloc, received, now, took) {
            Ok(()) => (),
            Err(AllocError) => self.loss = Some(Loss::Memory),
        }
    }

    /// Takes it that no answer came.
    pub fn lose(&mut self, loss: Loss)
        ensures stays { Stays self.old self.new }
        ensures lost { self.new.loss ≡ Some loss }
    {
        self.loss = Some(loss);
    }
}

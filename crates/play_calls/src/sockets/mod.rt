//! Clients over a service of 64 places on loopback, with a hall in memory and a clock that stands until an act moves it.
mod acts;
mod client;
mod log;
mod stage;

use cases::{CaseFault, Out, Played, Player, number, parsed};
use hall_store::{HallStore, Probe};
use hall_types::{Arch, Change, Interface, MacAddress, Machine, Number, RowWrite};
use play_log::{ADA, admin};
use stage::Stage;
use std::alloc::Global;
use store_group::Group;
use store_memory::MemoryStore;

// A new machine in the pool that every hall has, and its eight interfaces, 52:54:00:HH:HH:00 to 52:54:00:HH:HH:07, where HH:HH is its number.
fn rows_of(alloc: Global, number: u64) -> Result<Vec<RowWrite>, CaseFault> {
    let id = Number::new(number).map_err(|_| CaseFault::Form)?;
    let machine = Machine::new(id, Arch::Uefi64, parsed("default")?, None);
    let mut rows = Vec::new(alloc);
    rows.push(RowWrite::PutMachine { machine, was: None })?;
    let [.., high, low] = number.to_be_bytes();
    for last in 0..8 {
        rows.push(RowWrite::PutInterface(Interface {
            mac: MacAddress::from([0x52, 0x54, 0, high, low, last]),
            machine: machine.id,
        }))?;
    }
    Ok(rows)
}

// Adds the machines from 1 to this one.
fn fill<S: HallStore>(alloc: Global, store: &mut S, machines: u64) -> Played {
    for before in 0..machines {
        let change = Change::from(rows_of(alloc, before.saturating_add(1))?);
        store.apply(&change).map_err(|_| CaseFault::Unavailable)?;
    }
    Ok(())
}

// A hall of memory, from the words `MACHINES` or `MACHINES CALL`.
fn store_of(alloc: Global, words: &str) -> Result<Group<Probe<MemoryStore>>, CaseFault> {
    let (machines, fails_at) = match words.split_once(' ') {
        Some((machines, call)) => (number(machines)?, Some(number(call)?)),
        None => (number(words)?, None),
    };
    let (admin, digest) = admin(ADA)?;
    let store = MemoryStore::create(alloc, admin, digest);
    let mut store = store.map_err(|_| CaseFault::Unavailable)?;
    fill(alloc, &mut store, machines)?;
    Ok(Group::new(alloc, Probe::new(store, fails_at)))
}

/// What cases are played on: a hall in memory that is served, once an act has begun one.
#[derive(Drop)]
pub struct Hall<'a> {
    rt: &'a HostRuntime,
    stage: Option<Stage<'a, Group<Probe<MemoryStore>>>>,
}

impl<'a> Hall<'a> {
    /// No hall is begun yet.
    pub fn new(rt: &'a HostRuntime) -> Hall<'a> {
        Hall { rt, stage: None }
    }
}

impl<'a> Player for Hall<'a> {
    fn play(&mut self, act: &str, out: &mut Out) -> Played {
        if let Some(words) = act.strip_prefix("new ") {
            let store = store_of(self.rt.alloc(), words)?;
            self.stage = Some(Stage::new(self.rt, store)?);
            return Ok(());
        }
        if act == "begin"
            && let Some(stage) = self.stage.take()
        {
            self.stage = Some(stage.again());
            return Ok(());
        }
        let stage = self.stage.as_mut().ok_or(CaseFault::Act)?;
        stage.play(act, out)
    }
}

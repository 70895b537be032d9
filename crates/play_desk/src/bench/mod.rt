//! A log that is played so many times over a hall, for tools that measure it. The log's first line is `ADMIN DIGEST`. The lines after it are
//! played over the new hall that is made where there is no file, or in memory where the file is `-`: arrivals, as play_log parses them, and
//! changes `apply ROW; ROW; ..`. What is measured stands after the line `== rounds`: arrivals, and calls of the store, as `calls.rt`
//! says. It is parsed first, and then played so many times, each time the arrivals at a desk and then the calls. What is answered by a
//! refusal or by silence, and a call that finds nothing, end it. Over a file each change is durable before its call returns.
mod calls;
mod log;
mod rounds;

use cases::{CaseFault, number};
use hall_store::HallStore;
use log::{Log, read};
use rounds::play;
use sql_file::{StoreTask, create, over};
use std::alloc::Global;
use std::fs;
use store_memory::MemoryStore;

// Makes a hall in the file, where there is none; whether it was made.
fn made(rt: &HostRuntime, file: &str, log: &Log) -> Result<bool, CaseFault> {
    if fs::exists(rt, file)? {
        return Ok(false);
    }
    create(rt, file, log.admin, log.digest).map_err(|_| CaseFault::Io)?;
    Ok(true)
}

// The rounds, over the store of a hall's file.
#[derive(Drop)]
struct Measuring<'a> {
    alloc: Global,
    log: &'a Log,
    is_new: bool,
    times: u64,
}

impl<'a> StoreTask for Measuring<'a> {
    type Outcome = Result<u64, CaseFault>;

    fn over<S: HallStore>(self, store: S) -> (Result<u64, CaseFault>, S) {
        play(self.alloc, store, self.log, self.is_new, self.times)
    }
}

// Plays the rounds over a hall's file. A fault of the rounds comes before one of the closing.
fn over_file(rt: &HostRuntime, file: &str, log: &Log, times: u64) -> Result<u64, CaseFault> {
    let task = Measuring {
        alloc: rt.alloc(),
        log,
        is_new: made(rt, file, log)?,
        times,
    };
    let ended = over(rt, file, task).map_err(|_| CaseFault::Io)?;
    let sum = ended.outcome?;
    ended.closing.map_err(|_| CaseFault::Io)?;
    Ok(sum)
}

fn in_memory(alloc: Global, log: &Log, times: u64) -> Result<u64, CaseFault> {
    let store = MemoryStore::create(alloc, log.admin, log.digest).map_err(|_| CaseFault::Memory)?;
    play(alloc, store, log, true, times).0
}

/// Plays the log on standard input so many times over the hall of a file. The sum of the octets that were answered and of what the calls found.
pub fn measure(rt: &HostRuntime, file: &str, times: &str) -> Result<u64, CaseFault> {
    let times = number(times)?;
    let log = read(rt.alloc(), rt.stdin())?;
    if file == "-" {
        in_memory(rt.alloc(), &log, times)
    } else {
        over_file(rt, file, &log, times)
    }
}

//! Plays cases of a desk over each store. Where the arguments begin with `bench FILE TIMES`, a log is measured first, as `bench/mod.rt` says,
//! and the sum is printed. The others name files of cases:
//!
//! - files `NAME.cases` are played over halls in memory and over halls in SQLite. An act is `new ADMIN DIGEST`, which begins another hall, or `new`,
//!   whose administrator is ada with the token abc; or one that play_store has. Each is played again over either store in four ways: all
//!   arrivals that stand together by one run of the desk, each request from a reader to a writer, the event of each
//!   request and of each client's frame by one step of the desk, and each over a store that fails at each of its calls in turn;
//! - files `NAME.tables.cases` over the tables of a file: `new` begins with an empty file, and other acts are those that play_store has for them;
//! - files `NAME.stops.cases` while something stops, as `stopping.rt` says;
//! - files `NAME.once.cases` over halls as well, but in no other way; `wrong.once.cases` are wrong on purpose, so that what compares is tried too;
//! - files `NAME.runs.cases` over halls by runs alone.
//!
//! Where a fault shuts a hall's store, it is opened again before anything else comes, as a service does.
//!
//! What differs is printed, and for each of these how many cases, acts and differences there were.
#![tactic(auto)]

mod bench;
mod halls;
mod passes;
mod stopping;

use bench::measure;
use cases::{Played, files_of};
use passes::play_all;
use std::process::ExitCode;

fn run(rt: &HostRuntime) -> Played {
    let words = files_of(rt)?;
    let mut names = words.as_slice();
    if let [bench, file, times, files @ ..] = names
        && bench.as_str() == "bench"
    {
        let sum = measure(rt, file.as_str(), times.as_str())?;
        println!(rt; "{sum}")?;
        names = files;
    }
    if names.is_empty() {
        return Ok(());
    }
    play_all(rt, names)
}

fn main(rt: HostRuntime) -> ExitCode {
    match run(&rt) {
        Ok(()) => ExitCode::from(0),
        Err(fault) => {
            let _ = eprintln!(rt; "play_desk: {fault}");
            ExitCode::from(1)
        }
    }
}

//! What is measured, over an open store, which is given back. The store's type stays open here, so that no proof looks into a file.
use super::calls::{counted, parse_call};
use super::log::Log;
use cases::CaseFault;
use hall_desk::{Answer, Arrival, Desk};
use hall_store::HallStore;
use play_log::arrival;
use play_store::answer_again;
use pxe_vendor::Place;
use std::alloc::Global;
use std::slice;

/// What is counted: octets that are answered, or what calls find.
pub type Counted = Result<u64, CaseFault>;

// The number of octets that are answered, if they aren't a refusal. A request is read anew, so that what is measured goes
// from octets to octets.
fn answered<S: HallStore>(alloc: Global, desk: &mut Desk<S>, arrival: &Arrival) -> Counted {
    match answer_again(alloc, desk, arrival) {
        Answer::Frame(octets)
        | Answer::Response {
            status: 200,
            octets,
        } => Ok(octets.as_slice().len() as u64),
        _ => Err(CaseFault::Refused),
    }
}

// The sum of what is counted of each of these, so many times.
fn sum_of<T, F: FnMut(&T) -> Counted>(all: &[T], times: u64, mut count: F) -> Counted
    requires { F.IsAlwaysCallable count }
{
    let mut sum = 0u64;
    for _ in 0..times {
        for one in all {
            sum = sum.saturating_add(count(one)?);
        }
    }
    Ok(sum)
}

fn over_desk<S: HallStore>(
    alloc: Global,
    store: S,
    arrivals: &[Arrival],
    times: u64,
) -> (Counted, S) {
    let Ok(place) = Place::new(alloc, [192, 0, 2, 1], [192, 0, 2, 2], "hall.example") else {
        return (Err(CaseFault::Memory), store);
    };
    let mut desk = Desk::new(store, place);
    let sum = sum_of(
        arrivals,
        times,
        |arrival| answered(alloc, &mut desk, arrival),
    );
    (sum, desk.into_store())
}

// Makes a change of the new hall, which is a call of its store.
fn change<S: HallStore>(alloc: Global, mut store: S, line: &str) -> (Counted, S) {
    let call = parse_call(alloc, line);
    let made = call.and_then(|call| counted(alloc, &mut store, &call));
    (made, store)
}

fn arrive<S: HallStore>(alloc: Global, store: S, line: &str) -> (Counted, S) {
    match arrival(alloc, line) {
        Ok(arrival) => over_desk(alloc, store, slice::from_ref(&arrival), 1),
        Err(fault) => (Err(fault), store),
    }
}

// Plays the lines of a new hall, until one is refused.
fn make<S: HallStore>(alloc: Global, mut store: S, lines: &[String]) -> (Result<(), CaseFault>, S) {
    for line in lines {
        let (made, after) = if line.starts_with("apply ") {
            change(alloc, store, line.as_str())
        } else {
            arrive(alloc, store, line.as_str())
        };
        store = after;
        if let Err(fault) = made {
            return (Err(fault), store);
        }
    }
    (Ok(()), store)
}

// The sum over the arrivals, and over the calls.
fn measure<S: HallStore>(alloc: Global, store: S, log: &Log, times: u64) -> (Counted, S) {
    let (answers, mut store) = over_desk(alloc, store, log.arrivals.as_slice(), times);
    let calls = sum_of(
        log.calls.as_slice(),
        times,
        |call| counted(alloc, &mut store, call),
    );
    let sum = answers.and_then(|octets| Ok(octets.saturating_add(calls?)));
    (sum, store)
}

/// Makes the hall where it is new, and plays what is measured over it.
pub fn play<S: HallStore>(
    alloc: Global,
    store: S,
    log: &Log,
    is_new: bool,
    times: u64,
) -> (Counted, S) {
    if !is_new {
        return measure(alloc, store, log, times);
    }
    let (made, store) = make(alloc, store, log.hall.as_slice());
    match made {
        Ok(()) => measure(alloc, store, log, times),
        Err(fault) => (Err(fault), store),
    }
}

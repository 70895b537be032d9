//! Requests that are read anew from their octets each time they are answered: where memory ends, it may end while they
//! are read.
use hall_desk::{Answer, Arrival, Desk, Input};
use hall_http::Request;
use hall_store::HallStore;
use pxe_vendor::Octets;
use std::alloc::{AllocError, Global};

/// What came.
pub(crate) fn octets_of(input: &Input) -> &[u8] {
    match input {
        Input::Datagram { octets, .. } => octets.as_slice(),
        Input::Request(request) => request.octets(),
        Input::Quiet => &[],
    }
}

// So many first octets of what came, a request read anew from them.
fn front(alloc: Global, input: &Input, len: usize) -> Result<Input, AllocError> {
    let octets = octets_of(input).get(..len).unwrap_or(&[]);
    let octets = Octets::from(Vec::from_slice(alloc, octets)?);
    match input {
        Input::Datagram { port, .. } => Ok(Input::Datagram {
            port: *port,
            octets,
        }),
        Input::Request(_) => Ok(Input::Request(Request::read(alloc, octets)?)),
        Input::Quiet => Ok(Input::Quiet),
    }
}

/// An arrival of so many first octets of what came, with the same stamp.
pub(crate) fn front_of(
    alloc: Global,
    arrival: &Arrival,
    len: usize,
) -> Result<Arrival, AllocError> {
    Ok(Arrival {
        moment: arrival.moment,
        fresh: arrival.fresh,
        input: front(alloc, &arrival.input, len)?,
    })
}

// The same arrival, a request read anew.
fn read_again(alloc: Global, arrival: &Arrival) -> Result<Arrival, AllocError> {
    front_of(alloc, arrival, octets_of(&arrival.input).len())
}

/// The same arrivals, each request read anew, up to the first for which memory is wanting.
pub(crate) fn read_all_again(
    alloc: Global,
    arrivals: &[Arrival],
) -> Result<Vec<Arrival>, AllocError> {
    let mut again = Vec::with_capacity(alloc, arrivals.len())?;
    for arrival in arrivals {
        match read_again(alloc, arrival) {
            Ok(arrival) => again.push(arrival)?,
            Err(AllocError) => break,
        }
    }
    Ok(again)
}

/// Answers what came, a request read anew. One for which memory is wanting counts as not having come.
pub fn answer_again<S: HallStore>(alloc: Global, desk: &mut Desk<S>, arrival: &Arrival) -> Answer {
    match &arrival.input {
        Input::Request(_) => match read_again(alloc, arrival) {
            Ok(again) => desk.answer(alloc, &again),
            Err(AllocError) => Answer::Unavailable,
        },
        _ => desk.answer(alloc, arrival),
    }
}

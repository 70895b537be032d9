//! Events that are carried out by one step of a desk, in place of the arrivals that they come from.
use crate::hall::Hall;
use crate::readings::octets_of;
use cases::{CaseFault, Out, Played};
use dhcp_frame::read;
use hall_desk::{Answer, Arrival, Desk, Input};
use hall_events::{Event, Reply};
use hall_http::{Request, bytes_of, is_response};
use hall_store::HallStore;
use hall_types::{Client, Port};
use play_log::{arrival, client_of, file_of, place, push_answer};
use pxe_vendor::{Octets, boot_reply};
use std::alloc::Global;

// The answer to a request that a reply is.
fn response(alloc: Global, reply: &Reply) -> Result<Answer, CaseFault> {
    match reply {
        Reply::Http { status, .. } if is_response(reply) => Ok(Answer::Response {
            status: *status,
            octets: Octets::from(bytes_of(alloc, reply)?),
        }),
        Reply::Nothing => Ok(Answer::Silence),
        _ => Err(CaseFault::Form),
    }
}

// The frame that answers a client, which has to name this boot file.
fn offer(alloc: Global, datagram: &[u8], client: &Client, file: &str) -> Result<Answer, CaseFault> {
    let message = read(datagram).map_err(|_| CaseFault::Form)?;
    let octets = boot_reply(alloc, &message, client, &place(alloc)?);
    let octets = octets.map_err(|_| CaseFault::Memory)?;
    if file_of(octets.as_slice()) == Some(file) {
        Ok(Answer::Frame(Octets::from(octets)))
    } else {
        Err(CaseFault::Form)
    }
}

// Carries an event out that is no client's frame.
fn step_of<S: HallStore>(
    desk: &mut Desk<S>,
    alloc: Global,
    event: &Event,
    arrival: &Arrival,
) -> Result<Answer, CaseFault> {
    match desk.step(alloc, event, arrival.moment, arrival.fresh) {
        Ok(reply) => response(alloc, &reply),
        Err(_) => Err(CaseFault::Unavailable),
    }
}

// Carries the event out that a request makes. One that makes none is answered.
fn step_of_request<S: HallStore>(
    desk: &mut Desk<S>,
    alloc: Global,
    request: &Request,
    arrival: &Arrival,
) -> Result<Answer, CaseFault> {
    match request.asked() {
        Ok(asked) => step_of(desk, alloc, asked.event(), arrival),
        Err(_) => Ok(desk.answer(alloc, arrival)),
    }
}

// Carries a client's frame out. A refusal counts as the frame's not having come, which is answered by silence.
fn step_of_client<S: HallStore>(
    desk: &mut Desk<S>,
    alloc: Global,
    port: Port,
    client: Client,
    arrival: &Arrival,
) -> Result<Answer, CaseFault> {
    let event = Event::Frame { port, client };
    let Ok(reply) = desk.step(alloc, &event, arrival.moment, arrival.fresh) else {
        return Ok(Answer::Silence);
    };
    match (&reply, &event) {
        (Reply::Nothing, _) => Ok(Answer::Silence),
        (Reply::File(file), Event::Frame { client, .. }) => {
            offer(alloc, octets_of(&arrival.input), client, file.as_str())
        }
        _ => Err(CaseFault::Form),
    }
}

// Carries the event of an arrival out. What makes none is answered.
fn stepped<S: HallStore>(
    desk: &mut Desk<S>,
    alloc: Global,
    arrival: &Arrival,
) -> Result<Answer, CaseFault> {
    match &arrival.input {
        Input::Datagram { .. } => match client_of(alloc, arrival) {
            Ok((port, client)) => step_of_client(desk, alloc, port, client, arrival),
            Err(_) => Ok(desk.answer(alloc, arrival)),
        },
        Input::Request(request) => step_of_request(desk, alloc, request, arrival),
        Input::Quiet => step_of(desk, alloc, &Event::Quiet, arrival),
    }
}

impl<S: HallStore + Drop> Hall<S> {
    /// Carries the event of an arrival out by one step of a desk: a client's frame, what a request asks for, or a quiet
    /// moment. All else is answered.
    pub(crate) fn step(&mut self, words: &str, out: &mut Out) -> Played {
        let arrival = arrival(out.alloc(), words)?;
        let mut desk = self.take_desk(out.alloc())?;
        let answer = stepped(&mut desk, out.alloc(), &arrival);
        self.put_back(desk.into_store());
        push_answer(out, &arrival.input, &answer?)
    }
}

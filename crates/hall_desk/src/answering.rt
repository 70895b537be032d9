//! Answering what came, with an account of it.
ghost use Rattle.std.specs.Prelude.{◌≡◌};
ghost use Rattle.hall_desk.specs.{Account.given_or, Answering.Gives, Octets.arrival_of};
ghost use Rattle.hall_desk.specs.declared.arrival.Input.TheVariants as input;

use crate::account::{Account, Came, Notes};
use crate::arrival::{Answer, Stamp};
use crate::desk::Desk;
use crate::laws::histories_keep_the_laws;
use crate::octets::fault_response;
use crate::typed::{event_is_typed, frame_is_typed};
use dhcp_frame::read;
use hall_events::Event;
use hall_http::Request;
use hall_laws::{decisions_keep_the_rules, steps_keep_halls_sound};
use hall_store::{HallStore, Unavailable};
use hall_types::Port;
use pxe_vendor::client;
use std::alloc::Global;

// The answer that was given, or that of an arrival that counts as not having come.
fn given_or(missed: Answer, given: Result<Answer, Unavailable>) -> Answer
    ensures { result ≡ given_or missed given }
{
    match given {
        Ok(answer) => answer,
        Err(Unavailable) => missed,
    }
}

impl<S: HallStore> Desk<S> {
    /// Answers a datagram, and gives an account of it for a log: silence, if it is no frame of a client that is served, and where the hall may
    /// be as it was before.
    pub fn answer_datagram(
        &mut self,
        alloc: Global,
        port: Port,
        octets: &[u8],
        stamp: Stamp,
    ) -> (Answer, Account)
        ensures { Gives S.HallStore self.old self.new (arrival_of stamp (input.Datagram port octets.now)) result }
    {
        histories_keep_the_laws();
        steps_keep_halls_sound();
        decisions_keep_the_rules();
        let frame = match read(octets) {
            Ok(frame) => frame,
            Err(fault) => return (Answer::Silence, Account::of(Came::Malformed(fault))),
        };
        let client = match client(alloc, &frame) {
            Ok(client) => client,
            Err(cause) => return (Answer::Silence, Account::of(Came::NotServed(cause))),
        };
        frame_is_typed(&self.place, port, &client, stamp.fresh);
        let mut notes = Notes::NONE;
        let answer = self.carry_frame(alloc, port, &frame, &client, &mut notes);
        let came = Came::Client(client);
        (given_or(Answer::Silence, answer), Account { came, notes })
    }

    /// Answers a request by the event that it makes, and gives an account of it for a log. After `Unavailable` the hall is as it was before.
    pub fn answer_request(
        &mut self,
        alloc: Global,
        request: &Request,
        stamp: Stamp,
    ) -> (Answer, Account)
        ensures { Gives S.HallStore self.old self.new (arrival_of stamp (input.Request request.now)) result }
    {
        histories_keep_the_laws();
        steps_keep_halls_sound();
        decisions_keep_the_rules();
        let asked = match request.asked() {
            Ok(asked) => asked,
            Err(fault) => {
                let answer = given_or(Answer::Unavailable, fault_response(alloc, fault));
                return (answer, Account::of(Came::Refused(fault)));
            }
        };
        let event = asked.event();
        event_is_typed(&self.place, event, stamp.fresh);
        let mut notes = Notes::NONE;
        let answer = self.carry_request(alloc, event, stamp, &mut notes);
        let came = Came::Asked(asked);
        (
            given_or(Answer::Unavailable, answer),
            Account { came, notes },
        )
    }

    /// Answers a quiet moment, and gives an account of it for a log.
    pub fn answer_quiet(&mut self, alloc: Global, stamp: Stamp) -> (Answer, Account)
        ensures { Gives S.HallStore self.old self.new (arrival_of stamp input.Quiet) result }
    {
        histories_keep_the_laws();
        steps_keep_halls_sound();
        decisions_keep_the_rules();
        event_is_typed(&self.place, &Event::Quiet, stamp.fresh);
        let mut notes = Notes::NONE;
        let answer = self.carry_quiet(alloc, stamp, &mut notes);
        let came = Came::Quiet;
        (
            given_or(Answer::Unavailable, answer),
            Account { came, notes },
        )
    }
}

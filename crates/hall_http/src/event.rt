//! The event that a request makes.
ghost use Rattle.std.specs.{Prelude.{◌≡◌}, Result.result_map_both};
ghost use Rattle.hall_http.specs.{Answer.Answers, Event.{body_of, event_of_demand}, Reading.{IsKnown, IsKnownIfAny, event_after}, Request.IsEvent};
ghost use Rattle.hall_http.specs.Event as made;

use crate::command::{KeyedCommand, command_in};
use crate::demand::Demand;
use crate::fault::HttpFault;
use crate::known::{KnownHead, look};
use crate::report::{outcome_in, progress_in};
use crate::slices::suffix;
use hall_events::Event;
use hall_types::{Digest, Number, Outcome, Progress, Token};
use std::alloc::{AllocError, Global};

// The body: so many octets of what follows the head.
fn body_of(size: u64, after: &[u8]) -> Result<&[u8], HttpFault>
    ensures { result_map_both (λ body. body.now) (λ fault. fault) result ≡ body_of size after.now }
{
    if size <= after.len() as u64 {
        Ok(&after[..size as usize])
    } else {
        Err(HttpFault::BadRequest)
    }
}

fn report_event(
    alloc: Global,
    boot: Number,
    token: Token,
    size: u64,
    after: &[u8],
) -> Result<Event, HttpFault>
    ensures { Answers result (made.report_event boot token size after.now) }
{
    let body = body_of(size, after)?;
    Ok(Event::Report {
        boot,
        token,
        progress: progress_in(alloc, body)?.ok_or(HttpFault::BadRequest)?,
    })
}

fn answer_event(
    alloc: Global,
    bearer: Option<Digest>,
    order: Number,
    size: u64,
    after: &[u8],
) -> Result<Event, HttpFault>
    ensures { Answers result (made.answer_event bearer order size after.now) }
{
    let body = body_of(size, after)?;
    Ok(Event::OrderAnswer {
        bearer,
        order,
        outcome: outcome_in(alloc, body)?.ok_or(HttpFault::BadRequest)?,
    })
}

fn command_event(
    alloc: Global,
    bearer: Option<Digest>,
    size: u64,
    after: &[u8],
) -> Result<Event, HttpFault>
    ensures { Answers result (made.command_event bearer size after.now) }
{
    let body = body_of(size, after)?;
    let KeyedCommand { key, command } = command_in(alloc, body)?.ok_or(HttpFault::BadRequest)?;
    Ok(Event::Command {
        bearer,
        key,
        command,
    })
}

// The event of a demand, with what follows the head.
#[tactic(auto, unfolding(crate::specs::Event::event_of_demand))]
fn event_of_demand(alloc: Global, demand: Demand, after: &[u8]) -> Result<Event, HttpFault>
    ensures { Answers result (event_of_demand demand after.now) }
{
    match demand {
        Demand::Script { mac } => Ok(Event::Script { mac }),
        Demand::Report { boot, token, size } => report_event(alloc, boot, token, size, after),
        Demand::Orders { bearer } => Ok(Event::Orders { bearer }),
        Demand::OrderAnswer {
            bearer,
            order,
            size,
        } => answer_event(alloc, bearer, order, size, after),
        Demand::Machines { bearer } => Ok(Event::Machines { bearer }),
        Demand::OneMachine { bearer, machine } => Ok(Event::OneMachine { bearer, machine }),
        Demand::Command { bearer, size } => command_event(alloc, bearer, size, after),
    }
}

fn event_after(
    alloc: Global,
    demand: &Result<Demand, HttpFault>,
    after: &[u8],
) -> Result<Event, HttpFault>
    ensures { Answers result (event_after demand.now after.now) }
{
    match demand {
        Ok(demand) => event_of_demand(alloc, *demand, after),
        Err(fault) => Err(*fault),
    }
}

// The event of a request's octets, by what is known of their head.
fn event_of_known(alloc: Global, known: &KnownHead, octets: &[u8]) -> Result<Event, HttpFault>
    requires { IsKnown octets.now known.now }
    ensures { IsEvent octets.now result }
{
    match known {
        KnownHead::Never => Err(HttpFault::BadRequest),
        KnownHead::Found { len, demand } => event_after(alloc, demand, suffix(octets, *len)),
    }
}

/// The event that a request's octets make, by what is known of their head.
pub(crate) fn event_of(
    alloc: Global,
    known: &Option<KnownHead>,
    octets: &[u8],
) -> Result<Event, HttpFault>
    requires { IsKnownIfAny octets.now known.now }
    ensures { IsEvent octets.now result }
{
    if let Some(known) = known {
        return event_of_known(alloc, known, octets);
    }
    match look(alloc, octets) {
        Ok(Some(known)) => event_of_known(alloc, &known, octets),
        Ok(None) => Err(HttpFault::BadRequest),
        Err(AllocError) => Err(HttpFault::Memory),
    }
}

//! What a request asks for, as far as its head says it.
ghost use Rattle.std.specs.Prelude.{◌≡◌, length, map, All};
ghost use Rattle.hall_http.specs.{Prelude.{IsHeaderWithin, header_bytes}, Answer.Answers, Demand.{address_in, number_in, token_in, script_demand, report_demand, order_demand, machine_demand, command_demand, demand_for, demand_of, with_method, body_size}};

use crate::fault::HttpFault;
use crate::fields::{bearer, body_length};
use crate::resource::{Resource, resource_of};
use crate::target::{address_of, number_of, second_segment, third_segment, token_of};
use hall_types::{Digest, MacAddress, Number, Token};
use httparse::spans::HeaderSpan;
use std::alloc::Global;

/// What a request asks for, as far as its head says it.
#[derive(Clone, Copy)]
pub(crate) enum Demand {
    Script {
        mac: MacAddress,
    },
    Report {
        boot: Number,
        token: Token,
        size: u64,
    },
    Orders {
        bearer: Option<Digest>,
    },
    OrderAnswer {
        bearer: Option<Digest>,
        order: Number,
        size: u64,
    },
    Machines {
        bearer: Option<Digest>,
    },
    OneMachine {
        bearer: Option<Digest>,
        machine: Number,
    },
    Command {
        bearer: Option<Digest>,
        size: u64,
    },
}

impl Demand {
    /// How many octets of what follows the head are the body.
    pub(crate) fn body_size(self) -> u64
        ensures { result ≡ body_size self }
    {
        match self {
            Demand::Report { size, .. }
            | Demand::OrderAnswer { size, .. }
            | Demand::Command { size, .. } => size,
            _ => 0,
        }
    }
}

fn address_in(alloc: Global, target: &[u8]) -> Result<MacAddress, HttpFault>
    ensures { Answers result (address_in target.now) }
{
    address_of(alloc, second_segment(target))?.ok_or(HttpFault::BadRequest)
}

fn number_in(target: &[u8]) -> Result<Number, HttpFault>
    ensures { result ≡ number_in target.now }
{
    number_of(second_segment(target)).ok_or(HttpFault::BadRequest)
}

fn token_in(target: &[u8]) -> Result<Token, HttpFault>
    ensures { result ≡ token_in target.now }
{
    token_of(third_segment(target)).ok_or(HttpFault::BadRequest)
}

fn script_demand(alloc: Global, target: &[u8]) -> Result<Demand, HttpFault>
    ensures { Answers result (script_demand target.now) }
{
    let mac = address_in(alloc, target)?;
    Ok(Demand::Script { mac })
}

fn report_demand(target: &[u8], front: &[u8], headers: &[HeaderSpan]) -> Result<Demand, HttpFault>
    requires { All (IsHeaderWithin (length front.now)) headers.now }
    ensures { result ≡ report_demand target.now (map (header_bytes front.now) headers.now) }
{
    let boot = number_in(target)?;
    let token = token_in(target)?;
    let size = body_length(front, headers)?;
    Ok(Demand::Report { boot, token, size })
}

fn order_demand(target: &[u8], front: &[u8], headers: &[HeaderSpan]) -> Result<Demand, HttpFault>
    requires { All (IsHeaderWithin (length front.now)) headers.now }
    ensures { result ≡ order_demand target.now (map (header_bytes front.now) headers.now) }
{
    Ok(Demand::OrderAnswer {
        order: number_in(target)?,
        size: body_length(front, headers)?,
        bearer: bearer(front, headers),
    })
}

fn machine_demand(target: &[u8], front: &[u8], headers: &[HeaderSpan]) -> Result<Demand, HttpFault>
    requires { All (IsHeaderWithin (length front.now)) headers.now }
    ensures { result ≡ machine_demand target.now (map (header_bytes front.now) headers.now) }
{
    let machine = number_in(target)?;
    let bearer = bearer(front, headers);
    Ok(Demand::OneMachine { bearer, machine })
}

fn command_demand(front: &[u8], headers: &[HeaderSpan]) -> Result<Demand, HttpFault>
    requires { All (IsHeaderWithin (length front.now)) headers.now }
    ensures { result ≡ command_demand (map (header_bytes front.now) headers.now) }
{
    let size = body_length(front, headers)?;
    let bearer = bearer(front, headers);
    Ok(Demand::Command { bearer, size })
}

// What is asked of a resource by its method.
#[tactic(auto, unfolding(crate::specs::Demand::demand_for))]
fn demand_for(
    alloc: Global,
    resource: Resource,
    target: &[u8],
    front: &[u8],
    headers: &[HeaderSpan],
) -> Result<Demand, HttpFault>
    requires { All (IsHeaderWithin (length front.now)) headers.now }
    ensures { Answers result (demand_for resource target.now (map (header_bytes front.now) headers.now)) }
{
    match resource {
        Resource::Script => script_demand(alloc, target),
        Resource::Report => report_demand(target, front, headers),
        Resource::Orders => Ok(Demand::Orders {
            bearer: bearer(front, headers),
        }),
        Resource::Order => order_demand(target, front, headers),
        Resource::Machines => Ok(Demand::Machines {
            bearer: bearer(front, headers),
        }),
        Resource::Machine => machine_demand(target, front, headers),
        Resource::Commands => command_demand(front, headers),
    }
}

/// What a head's method, target and fields ask for.
#[tactic(auto, unfolding(crate::specs::Demand::demand_of))]
pub(crate) fn demand_of(
    alloc: Global,
    method: &[u8],
    target: &str,
    front: &[u8],
    headers: &[HeaderSpan],
) -> Result<Demand, HttpFault>
    requires { All (IsHeaderWithin (length front.now)) headers.now }
    ensures { Answers result (demand_of method.now target.now (map (header_bytes front.now) headers.now)) }
{
    let Ok(resource) = resource_of(alloc, target) else {
        return Err(HttpFault::Memory);
    };
    let Some(resource) = resource else {
        return Err(HttpFault::NoRoute);
    };
    if method != resource.method().as_bytes() {
        return Err(HttpFault::WrongMethod);
    }
    demand_for(alloc, resource, target.as_bytes(), front, headers)
}

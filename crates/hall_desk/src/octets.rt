//! Answers in octets.
ghost use Rattle.std.specs.Prelude.{◌≡◌, ◌≢◌, IfOk};
ghost use Rattle.hall_events.specs.Reply as content;
ghost use Rattle.hall_http.specs.declared.fault.HttpFault.TheVariants as why;
ghost use Rattle.hall_desk.specs.{Prelude.{reply_of, Content, second, Hall, Site, framed}, Octets.{refusal_of, response_answer, frame_answer}};

use crate::arrival::Answer;
use boot_desk::Decision;
use dhcp_frame::Frame;
use hall_events::Reply;
use hall_http::{HttpFault, bytes_of, is_response};
use hall_store::Unavailable;
use hall_types::Refusal;
use pxe_vendor::{Client, Octets, Place, boot_reply};
use std::alloc::Global;

// The response with an answer by HTTP.
fn response_with(alloc: Global, reply: &Reply) -> Result<Answer, Unavailable>
    ensures { (said : Content) → reply.now ≡ reply_of second said → IfOk result (λ answer. answer ≡ response_answer said) }
{
    let Reply::Http { status, .. } = reply else {
        return Err(Unavailable);
    };
    if !is_response(reply) {
        return Err(Unavailable);
    }
    let octets = Octets::from(bytes_of(alloc, reply)?);
    Ok(Answer::Response {
        status: *status,
        octets,
    })
}

/// The response with an answer by HTTP. `Unavailable` if memory is wanting, or a receipt kept a status that no response
/// has.
pub(crate) fn response(alloc: Global, reply: Reply) -> Result<Answer, Unavailable>
    ensures { (said : Content) → reply ≡ reply_of second said → IfOk result (λ answer. answer ≡ response_answer said) }
{
    let response = response_with(alloc, &reply);
    drop(reply);
    response
}

// The refusal of a request that makes no event.
fn refusal_of(fault: HttpFault) -> Refusal
    ensures { result ≡ refusal_of fault }
{
    match fault {
        HttpFault::BadRequest => Refusal::BadRequest,
        HttpFault::NoRoute => Refusal::NoRoute,
        HttpFault::WrongMethod => Refusal::WrongMethod,
        HttpFault::NeedLength => Refusal::NeedLength,
        HttpFault::TooLarge => Refusal::TooLarge,
        HttpFault::Memory => Refusal::Unavailable,
    }
}

/// The response to a request that makes no event. There is none where memory was wanting to read it.
pub(crate) fn fault_response(alloc: Global, fault: HttpFault) -> Result<Answer, Unavailable>
    ensures known { IfOk result (λ answer. fault ≢ why.Memory) }
    ensures response { IfOk result (λ answer. answer ≡ response_answer (content.refused (refusal_of fault))) }
{
    if let HttpFault::Memory = fault {
        return Err(Unavailable);
    }
    let reply = Reply::refused(alloc, refusal_of(fault))?;
    response(alloc, reply)
}

/// The answer to a client's frame.
pub(crate) fn client_answer(
    alloc: Global,
    decision: Decision,
    frame: &Frame<'_>,
    client: &Client,
    place: &Place,
) -> Result<Answer, Unavailable>
    ensures { (h : Hall) → IfOk result (λ answer. answer ≡ frame_answer place.now frame.now client.now (framed decision place.now h client.now).content) }
{
    if let Decision::Silent(_) = decision {
        return Ok(Answer::Silence);
    }
    match boot_reply(alloc, frame, client, place) {
        Ok(octets) => Ok(Answer::Frame(Octets::from(octets))),
        Err(_) => Err(Unavailable),
    }
}

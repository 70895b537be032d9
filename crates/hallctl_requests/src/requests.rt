//! What is asked of the desk, and the octets of requests.
ghost use Rattle.std.specs.Prelude.{◌≡◌, ◌++◌, ◌↔◌, false, codes, decimal, length, string_bytes, IfOk, OnOk, IsErrOf, IsTrue, Result, Ok};
ghost use Rattle.serde_json.specs.View.{view};
ghost use Rattle.hallctl_requests.specs.{Prelude.{Answers, IsEvent, HttpFault, IsSendableCommand, is_identified, Event, answer_text, outcome_data, request_text, IsNumber}, Request.{IsSendable, asked, body_part, brings_blank, common_lines, event_of, field_line, get_of, post_of, request_line, request_of}};

use crate::checked_text::{Authority, BearerToken};
use hall_events::HallCommand;
use hall_http::{has_parts, is_identified};
use hall_types::{Number, Outcome, RequestKey};
use itoa::Buffer;
use serde_json::{Value, json};
use std::alloc::{AllocError, Global};
use thiserror::Error;

/// Room for the octets of a request's head.
const HEAD_ROOM: usize = 768;

/// What is asked of the desk.
#[derive(Clone, Copy)]
pub enum Ask<'c> {
    /// The list of machines.
    Machines,
    /// The machine with this number.
    Machine(Number),
    /// The waiting orders.
    Orders,
    /// To note what an order has come to.
    Answer {
        order: Number,
        outcome: Outcome,
    },
    /// To carry out a command, at most once for its key.
    Command {
        key: RequestKey,
        command: &'c HallCommand,
    },
}

/// Why a request can't be made.
#[derive(Clone, Copy, Debug, PartialEq, Eq, Error)]
pub enum RequestFault {
    /// The UUID of a new machine is all zeros or all ones, which the desk refuses.
    #[error("a UUID of zeros or ones alone identifies no machine")]
    BlankUuid = 1,
    #[error("memory is wanting")]
    Memory = 2,
}

impl From<AllocError> for RequestFault {
    ghost use Rattle.hallctl_requests.specs.declared.requests.RequestFault.TheVariants.{Memory};

    ghost from_gives = { λ _ fault. fault ≡ Memory };

    fn from(_error: AllocError) -> RequestFault {
        RequestFault::Memory
    }
}

#[tactic(auto, unfolding(crate::specs::Request::request_line))]
fn push_request_line(octets: &mut Vec<u8>, method: &str, target: &str) -> Result<(), AllocError>
    ensures { OnOk result (octets.new.items ≡ octets.old.items ++ request_line method.now target.now) }
{
    octets.extend_from_slice(method.as_bytes())?;
    octets.extend_from_slice(b" ")?;
    octets.extend_from_slice(target.as_bytes())?;
    octets.extend_from_slice(b" HTTP/1.1\r\n")
}

#[tactic(auto, unfolding(crate::specs::Request::field_line))]
fn push_field(octets: &mut Vec<u8>, name: &str, value: &str) -> Result<(), AllocError>
    ensures { OnOk result (octets.new.items ≡ octets.old.items ++ field_line name.now value.now) }
{
    octets.extend_from_slice(name.as_bytes())?;
    octets.extend_from_slice(b": ")?;
    octets.extend_from_slice(value.as_bytes())?;
    octets.extend_from_slice(b"\r\n")
}

#[tactic(auto, unfolding(crate::specs::Request::field_line))]
fn push_token(octets: &mut Vec<u8>, token: &str) -> Result<(), AllocError>
    ensures { OnOk result (octets.new.items ≡ octets.old.items ++ field_line (codes "Authorization") (codes "Bearer " ++ token.now)) }
{
    octets.extend_from_slice(b"Authorization: Bearer ")?;
    octets.extend_from_slice(token.as_bytes())?;
    octets.extend_from_slice(b"\r\n")
}

// The fields of each request.
fn push_common(octets: &mut Vec<u8>, authority: &str, token: &str) -> Result<(), AllocError>
    ensures { OnOk result (octets.new.items ≡ octets.old.items ++ common_lines authority.now token.now) }
{
    push_field(octets, "Host", authority)?;
    push_token(octets, token)?;
    push_field(octets, "Connection", "close")
}

// A request without a body.
fn get(
    alloc: Global,
    authority: &Authority,
    token: &BearerToken,
    target: &str,
) -> Result<Vec<u8>, AllocError>
    ensures { IfOk result (λ octets. octets.items ≡ get_of authority.now token.now target.now) }
{
    let mut octets = Vec::with_capacity(alloc, HEAD_ROOM)?;
    push_request_line(&mut octets, "GET", target)?;
    push_common(&mut octets, authority.text(), token.text())?;
    octets.extend_from_slice(b"\r\n")?;
    Ok(octets)
}

fn machine_target(alloc: Global, id: u64) -> Result<String, AllocError>
    ensures { IfOk result (λ text. string_bytes text ≡ codes "/machines/" ++ decimal id) }
{
    let mut buffer = Buffer::new();
    let mut target = String::from_str(alloc, "/machines/")?;
    target.push_str(buffer.format(id))?;
    Ok(target)
}

fn get_machine(
    alloc: Global,
    authority: &Authority,
    token: &BearerToken,
    id: Number,
) -> Result<Vec<u8>, AllocError>
    ensures octets { IfOk result (λ octets. octets.items ≡ get_of authority.now token.now (codes "/machines/" ++ decimal id)) }
    ensures number { OnOk result (IsNumber id) }
{
    let target = machine_target(alloc, id.get())?;
    get(alloc, authority, token, &target)
}

// What follows the common fields of a request with a body of JSON.
fn push_body(octets: &mut Vec<u8>, body: &str) -> Result<(), AllocError>
    ensures { OnOk result (octets.new.items ≡ octets.old.items ++ body_part body.now) }
{
    let mut size = Buffer::new();
    push_field(octets, "Content-Type", "application/json")?;
    push_field(octets, "Content-Length", size.format(body.len()))?;
    octets.extend_from_slice(b"\r\n")?;
    octets.extend_from_slice(body.as_bytes())?;
    Ok(())
}

// A request with a body of JSON.
fn post(
    alloc: Global,
    authority: &Authority,
    token: &BearerToken,
    target: &str,
    body: &str,
) -> Result<Vec<u8>, AllocError>
    ensures { IfOk result (λ octets. octets.items ≡ post_of authority.now token.now target.now body.now) }
{
    let mut octets = Vec::with_capacity(alloc, body.len().saturating_add(HEAD_ROOM))?;
    push_request_line(&mut octets, "POST", target)?;
    push_common(&mut octets, authority.text(), token.text())?;
    push_body(&mut octets, body)?;
    Ok(octets)
}

fn order_target(alloc: Global, order: u64) -> Result<String, AllocError>
    ensures { IfOk result (λ text. string_bytes text ≡ codes "/orders/" ++ decimal order) }
{
    let mut buffer = Buffer::new();
    let mut target = String::from_str(alloc, "/orders/")?;
    target.push_str(buffer.format(order))?;
    Ok(target)
}

fn outcome_value(alloc: Global, outcome: Outcome) -> Result<Value, AllocError>
    ensures { IfOk result (λ value. view value ≡ outcome_data outcome) }
{
    json!(in alloc; {"outcome": outcome.text()})
}

#[tactic(auto, unfolding(hall_http::specs::Command::answer_text))]
fn answer_text(alloc: Global, outcome: Outcome) -> Result<String, AllocError>
    ensures { IfOk result (λ text. string_bytes text ≡ answer_text outcome) }
{
    outcome_value(alloc, outcome)?.to_string(alloc)
}

fn post_answer(
    alloc: Global,
    authority: &Authority,
    token: &BearerToken,
    order: Number,
    outcome: Outcome,
) -> Result<Vec<u8>, AllocError>
    ensures octets { IfOk result (λ octets. octets.items ≡ post_of authority.now token.now (codes "/orders/" ++ decimal order) (answer_text outcome)) }
    ensures number { OnOk result (IsNumber order) }
{
    let target = order_target(alloc, order.get())?;
    let body = answer_text(alloc, outcome)?;
    post(alloc, authority, token, &target, &body)
}

// The text of a command that the desk can read.
fn body_text(alloc: Global, key: RequestKey, command: &HallCommand) -> Result<String, RequestFault>
    ensures text { IfOk result (λ text. string_bytes text ≡ request_text key command.now) }
    ensures sendable { OnOk result (IsSendableCommand key command.now) }
    ensures blank { IsErrOf result RequestFault.BlankUuid ↔ (is_identified command.now ≡ false) }
{
    if !is_identified(command) {
        return Err(RequestFault::BlankUuid);
    }
    has_parts(command);
    let text = command.request_text(alloc, key)?;
    let _ = text.as_str();
    Ok(text)
}

fn post_command(
    alloc: Global,
    authority: &Authority,
    token: &BearerToken,
    key: RequestKey,
    command: &HallCommand,
) -> Result<Vec<u8>, RequestFault>
    ensures octets { IfOk result (λ octets. octets.items ≡ post_of authority.now token.now (codes "/commands") (request_text key command.now)) }
    ensures sendable { OnOk result (IsSendableCommand key command.now) }
    ensures blank { IsErrOf result RequestFault.BlankUuid ↔ (is_identified command.now ≡ false) }
{
    let body = body_text(alloc, key, command)?;
    Ok(post(alloc, authority, token, "/commands", &body)?)
}

// The request, which the desk reads as what is asked.
#[tactic(auto, using(crate::specs::PartLaws::machines_parts, crate::specs::PartLaws::machine_parts, crate::specs::PartLaws::orders_parts, crate::specs::PartLaws::answer_parts, crate::specs::PartLaws::command_parts))]
fn request_inner(
    alloc: Global,
    authority: &Authority,
    token: &BearerToken,
    ask: &Ask<'_>,
) -> Result<Vec<u8>, RequestFault>
    ensures octets { IfOk result (λ octets. octets.items ≡ request_of authority.now token.now (asked ask.now)) }
    ensures sendable { OnOk result (IsSendable (asked ask.now)) }
    ensures blank { IsErrOf result RequestFault.BlankUuid ↔ IsTrue (brings_blank (asked ask.now)) }
{
    match ask {
        Ask::Machines => Ok(get(alloc, authority, token, "/machines")?),
        Ask::Machine(id) => Ok(get_machine(alloc, authority, token, *id)?),
        Ask::Orders => Ok(get(alloc, authority, token, "/orders")?),
        Ask::Answer { order, outcome } => Ok(post_answer(
            alloc, authority, token, *order, *outcome,
        )?),
        Ask::Command { key, command } => post_command(alloc, authority, token, *key, command),
    }
}

/// The octets of a request (RFC 9112 section 3): the desk reads them as what is asked, with the digest of the
/// token. A command and an order's answer are POSTs of JSON with their Content-Length, the others are GETs; each
/// asks that the connection be closed after the answer.
///
/// # Errors
///
/// `BlankUuid` if and only if a new machine's UUID identifies none, and `Memory`.
#[tactic(auto, using(crate::specs::RequestLaws::request_is_read))]
pub fn request(
    alloc: Global,
    authority: &Authority,
    token: &BearerToken,
    ask: &Ask<'_>,
) -> Result<Vec<u8>, RequestFault>
    ensures octets { IfOk result (λ octets. octets.items ≡ request_of authority.now token.now (asked ask.now)) }
    ensures sendable { OnOk result (IsSendable (asked ask.now)) }
    ensures read { IfOk result (λ octets. (r : Result Event HttpFault) → IsEvent octets.items r → Answers r (Ok (event_of token.now (asked ask.now)))) }
    ensures blank { IsErrOf result RequestFault.BlankUuid ↔ IsTrue (brings_blank (asked ask.now)) }
{
    let _ = authority.text();
    let _ = token.text();
    request_inner(alloc, authority, token, ask)
}

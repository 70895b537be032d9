//! An answer is the desk's only if its octets are what the desk writes to what it was asked.
ghost use Rattle.std.specs.Prelude.{◌≡◌, ◌↔◌, IfOk, IfSome, IsTrue, string_bytes};
ghost use Rattle.hall_events.specs.Reply.{status_data};
ghost use Rattle.serde_json.specs.{Written.{compact_text, has_float}, View.view};
ghost use Rattle.hallctl_texts.specs.DeskAnswer.{Answers, Gives, IsDue, IsReplyOf, IsStateOf, IsTextOf, Refuses, due_to};

use crate::json::value_in;
use crate::listed_replies::listed_reply;
use crate::members::{refusal_at, state_at, text_at};
use hall_events::{BodyKind, HallCommand, MachineCommand, Reply};
use hall_types::{Number, Refusal, Status, Text, Version};
use serde_json::{Value, json};
use std::alloc::{AllocError, Global};

/// What the desk is asked.
#[derive(Clone, Copy)]
pub enum Question<'c> {
    /// The list of machines.
    Machines,
    /// The machine with this number.
    Machine(Number),
    /// The orders that wait.
    Orders,
    /// To note what an order has come to.
    Answer,
    /// To carry out a command.
    Command(&'c HallCommand),
}

/// A machine's number, status and version.
#[derive(Clone, Copy)]
pub struct MachineState {
    pub id: Number,
    pub status: Status,
    pub version: Version,
}

/// What an answer of the desk says.
#[derive(Clone, Copy)]
pub enum DeskAnswer {
    /// It is the list or the machine that was asked for.
    Listed,
    /// The order's answer was counted.
    Counted,
    /// The order's answer had been counted before.
    Repeated,
    /// The command was carried out.
    Done,
    /// The command was carried out, and deleted this machine.
    Deleted(Number),
    /// The command was carried out, and the machine is so after it.
    Machine(MachineState),
    /// What was asked for isn't given, for this cause.
    Refused(Refusal),
}

/// What a command is answered that was carried out.
#[derive(Clone, Copy)]
pub(crate) enum Due {
    /// Nothing more.
    Nothing,
    /// The number of the machine that was deleted.
    Gone(Number),
    /// This machine's status and version.
    Machine(Number),
    /// A new machine's number, status and version.
    NewMachine,
}

fn due_to(command: &HallCommand) -> Due
    ensures { result ≡ due_to command.now }
{
    match command {
        HallCommand::OnMachine {
            machine,
            command: MachineCommand::Delete,
            ..
        } => Due::Gone(*machine),
        HallCommand::OnMachine { machine, .. } => Due::Machine(*machine),
        HallCommand::AddMachine { .. } => Due::NewMachine,
        _ => Due::Nothing,
    }
}

/// An answer, and the reply by which the desk gives it.
type Said = (DeskAnswer, Reply);

// The status of an answer to what was carried out.
const OK: u16 = 200;

fn state_value(alloc: Global, state: &MachineState) -> Result<Value, AllocError>
    ensures { IfOk result (λ value. view value ≡ status_data state.now.id state.now.status state.now.version) }
{
    json!(in alloc; {"id": state.id.get(), "status": state.status.text(), "version": state.version.get()})
}

fn state_text(alloc: Global, state: &MachineState) -> Result<String, AllocError>
    ensures { IfOk result (λ text. string_bytes text ≡ compact_text (status_data state.now.id state.now.status state.now.version)) }
{
    state_value(alloc, state)?.to_string(alloc)
}

// That a machine is so.
#[tactic(auto, unfolding(hall_events::specs::Reply::reply_of))]
fn machine_said(alloc: Global, state: &MachineState) -> Result<Said, AllocError>
    ensures { IfOk result (λ said. IsReplyOf (IsStateOf state.now said.0) said.1) }
{
    let reply = Reply::Http {
        status: OK,
        kind: BodyKind::Json,
        body: Text::from(state_text(alloc, state)?),
    };
    Ok((DeskAnswer::Machine(*state), reply))
}

// The state of this machine, where a value says it.
fn this_machine(alloc: Global, machine: Number, value: &Value) -> Result<Option<Said>, AllocError>
    ensures { IfOk result (λ said. IfSome said (λ said. IsReplyOf (IsDue (Due.Machine machine) said.0) said.1)) }
{
    match state_at(value) {
        Some(state) if state.id == machine => Ok(Some(machine_said(alloc, &state)?)),
        _ => Ok(None),
    }
}

// A machine's state, where a value says it.
fn new_machine(alloc: Global, value: &Value) -> Result<Option<Said>, AllocError>
    ensures { IfOk result (λ said. IfSome said (λ said. IsReplyOf (IsDue Due.NewMachine said.0) said.1)) }
{
    match state_at(value) {
        Some(state) => Ok(Some(machine_said(alloc, &state)?)),
        None => Ok(None),
    }
}

// What a command is answered that was carried out, as far as a value says it.
fn carried_out(alloc: Global, due: Due, value: &Value) -> Result<Option<Said>, AllocError>
    ensures { IfOk result (λ said. IfSome said (λ said. IsReplyOf (IsDue due said.0) said.1)) }
{
    match due {
        Due::Nothing => Ok(Some((DeskAnswer::Done, Reply::done(alloc)?))),
        Due::Gone(machine) => {
            let reply = Reply::gone(alloc, machine)?;
            Ok(Some((DeskAnswer::Deleted(machine), reply)))
        }
        Due::Machine(machine) => this_machine(alloc, machine, value),
        Due::NewMachine => new_machine(alloc, value),
    }
}

// What is listed, as far as a value lists it.
fn listed_in(
    alloc: Global,
    question: &Question<'_>,
    value: &Value,
) -> Result<Option<Said>, AllocError>
    ensures { IfOk result (λ said. IfSome said (λ said. IsReplyOf (Gives question.now said.0) said.1)) }
{
    match listed_reply(alloc, question, value)? {
        Some(reply) => Ok(Some((DeskAnswer::Listed, reply))),
        None => Ok(None),
    }
}

// What the answer to an order is answered, as far as a value says it.
fn noted(alloc: Global, value: &Value) -> Result<Option<Said>, AllocError>
    ensures { IfOk result (λ said. IfSome said (λ said. IsReplyOf (Gives Question.Answer said.0) said.1)) }
{
    match text_at(value, "result") {
        Some("counted") => Ok(Some((DeskAnswer::Counted, Reply::counted(alloc)?))),
        Some("repeat") => Ok(Some((DeskAnswer::Repeated, Reply::repeated(alloc)?))),
        _ => Ok(None),
    }
}

// What is asked for, as far as a value gives it.
fn given(alloc: Global, question: &Question<'_>, value: &Value) -> Result<Option<Said>, AllocError>
    ensures { IfOk result (λ said. IfSome said (λ said. IsReplyOf (Gives question.now said.0) said.1)) }
{
    match question {
        Question::Command(command) => carried_out(alloc, due_to(command), value),
        Question::Answer => noted(alloc, value),
        Question::Machines | Question::Machine(_) | Question::Orders => listed_in(
            alloc, question, value,
        ),
    }
}

fn refused(alloc: Global, refusal: Refusal) -> Result<Said, AllocError>
    ensures { IfOk result (λ said. IsReplyOf (Refuses said.0) said.1) }
{
    let reply = Reply::refused(alloc, refusal)?;
    Ok((DeskAnswer::Refused(refusal), reply))
}

// The one answer to what was asked that a value can be of.
fn answer_in(
    alloc: Global,
    question: &Question<'_>,
    value: &Value,
) -> Result<Option<Said>, AllocError>
    ensures { IfOk result (λ said. IfSome said (λ said. IsReplyOf (Answers question.now said.0) said.1)) }
{
    match refusal_at(value) {
        Some(refusal) => Ok(Some(refused(alloc, refusal)?)),
        None => given(alloc, question, value),
    }
}

// Whether an answer of JSON with this status and this body is the reply.
fn is_reply(reply: &Reply, status: u16, body: &str) -> bool
    ensures { IsTrue result ↔ (reply.now ≡ Reply.Http status BodyKind.Json body.now) }
{
    match reply {
        Reply::Http {
            status: own,
            kind: BodyKind::Json,
            body: text,
        } => *own == status && text.as_str() == body,
        _ => false,
    }
}

/// What the desk says with this status and this body to what it was asked; `None` where it is no answer of the desk's to that. The octets
/// are compared whole with what the desk writes. That each of the desk's answers is read is not promised: stored runs show it.
pub fn desk_answer(
    alloc: Global,
    question: &Question<'_>,
    status: u16,
    body: &str,
) -> Result<Option<DeskAnswer>, AllocError>
    ensures { IfOk result (λ said. IfSome said (λ answer. IsTextOf (Answers question.now answer) status body.now)) }
{
    let Some(value) = value_in(alloc, body)? else {
        return Ok(None);
    };
    let Some((answer, reply)) = answer_in(alloc, question, &value)? else {
        return Ok(None);
    };
    Ok(is_reply(&reply, status, body).then_some(answer))
}

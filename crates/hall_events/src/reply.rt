//! What the desk answers.
ghost use Rattle.std.specs.Prelude.{◌≡◌, ◌++◌, codes, false, IfOk, OnOk, string_bytes};
ghost use Rattle.serde_json.specs.{View.view, Written.{comma_if, compact_text, has_float}};
ghost use Rattle.hall_types.specs.Hall.{second};
ghost use Rattle.hall_events.specs.Reply as content;
ghost use Rattle.hall_events.specs.Reply.{id_data, listed, ok as answer_of, order_data, refusal_data, reply_of, result_data};

use crate::list_text::push_item;
use crate::machine_text::push_machine;
use crate::machine_value::{order_value, status_value};
use hall_types::{Interface, Machine, Number, Order, Receipt, Refusal, Text};
use ipxe_script::Script;
use serde_json::{Value, json};
use std::alloc::{AllocError, Global};

/// The kind of a body (RFC 9110 section 8.3).
#[derive(Clone, Copy)]
pub enum BodyKind {
    /// `text/plain`
    Text,
    /// `application/json`
    Json,
}

/// What the desk answers.
#[derive(Drop)]
pub enum Reply {
    /// The answer to a request by HTTP, with its status (RFC 9110 section 15).
    Http {
        status: u16,
        kind: BodyKind,
        body: Text,
    },
    /// The name of the boot file for a client.
    File(Text),
    Nothing,
}

// The status of an answer to a request that was carried out.
pub(crate) const OK: u16 = 200;

// An answer of JSON.
pub(crate) fn json_reply(status: u16, body: String) -> Reply
    ensures { result ≡ Reply.Http status BodyKind.Json (string_bytes body) }
{
    Reply::Http {
        status,
        kind: BodyKind::Json,
        body: Text::from(body),
    }
}

// The answer with this value.
fn ok(alloc: Global, value: &Value) -> Result<Reply, AllocError>
    requires { has_float (view value.now) ≡ false }
    ensures { IfOk result (λ reply. reply ≡ answer_of (view value.now)) }
{
    Ok(json_reply(OK, value.to_string(alloc)?))
}

fn refusal_value(alloc: Global, refusal: Refusal) -> Result<Value, AllocError>
    ensures { IfOk result (λ value. view value ≡ refusal_data refusal) }
{
    json!(in alloc; {"refusal": refusal.name()})
}

fn word_value(alloc: Global, word: &str) -> Result<Value, AllocError>
    ensures { IfOk result (λ value. view value ≡ result_data word.now) }
{
    json!(in alloc; {"result": word})
}

fn id_value(alloc: Global, id: Number) -> Result<Value, AllocError>
    ensures { IfOk result (λ value. view value ≡ id_data id) }
{
    json!(in alloc; {"id": id.get()})
}

// One more order, with a comma before it if it's a later one.
fn push_order(
    alloc: Global,
    text: &mut String,
    later: bool,
    order: &Order,
) -> Result<(), AllocError>
    ensures { OnOk result (string_bytes text.new ≡ string_bytes text.old ++ (comma_if later ++ compact_text (order_data order.now))) }
{
    let order = order_value(alloc, order)?;
    push_item(alloc, text, later, &order)
}

impl Reply {
    /// The answer with this script.
    #[tactic(auto, unfolding(crate::specs::Reply::reply_of))]
    pub fn script(alloc: Global, script: &Script) -> Result<Reply, AllocError>
        ensures { IfOk result (λ reply. reply ≡ reply_of second (content.script script.now)) }
    {
        Ok(Reply::Http {
            status: OK,
            kind: BodyKind::Text,
            body: Text::from(script.print(alloc)?),
        })
    }

    /// The answer that refuses for this cause.
    #[tactic(auto, unfolding(crate::specs::Reply::reply_of))]
    pub fn refused(alloc: Global, refusal: Refusal) -> Result<Reply, AllocError>
        ensures { IfOk result (λ reply. reply ≡ reply_of second (content.refused refusal)) }
    {
        let text = refusal_value(alloc, refusal)?.to_string(alloc)?;
        Ok(json_reply(refusal.status(), text))
    }

    /// The answer to a report, or to the answer to an order, that was counted.
    #[tactic(auto, unfolding(crate::specs::Reply::reply_of))]
    pub fn counted(alloc: Global) -> Result<Reply, AllocError>
        ensures { IfOk result (λ reply. reply ≡ reply_of second content.counted) }
    {
        ok(alloc, &word_value(alloc, "counted")?)
    }

    /// The answer to a report, or to the answer to an order, that had been counted before.
    #[tactic(auto, unfolding(crate::specs::Reply::reply_of))]
    pub fn repeated(alloc: Global) -> Result<Reply, AllocError>
        ensures { IfOk result (λ reply. reply ≡ reply_of second content.repeated) }
    {
        ok(alloc, &word_value(alloc, "repeat")?)
    }

    /// The answer to a command on a machine, with the machine as it is after the command.
    #[tactic(auto, unfolding(crate::specs::Reply::reply_of))]
    pub fn machine(alloc: Global, machine: &Machine) -> Result<Reply, AllocError>
        ensures { IfOk result (λ reply. reply ≡ reply_of second (content.machine_is machine.now.id machine.now.status machine.now.version)) }
    {
        ok(alloc, &status_value(alloc, machine)?)
    }

    /// The answer to the command that deleted the machine with this number.
    #[tactic(auto, unfolding(crate::specs::Reply::reply_of))]
    pub fn gone(alloc: Global, machine: Number) -> Result<Reply, AllocError>
        ensures { IfOk result (λ reply. reply ≡ reply_of second (content.machine_gone machine)) }
    {
        ok(alloc, &id_value(alloc, machine)?)
    }

    /// The answer to any other command that was carried out.
    #[tactic(auto, unfolding(crate::specs::Reply::reply_of))]
    pub fn done(alloc: Global) -> Result<Reply, AllocError>
        ensures { IfOk result (λ reply. reply ≡ reply_of second content.done) }
    {
        Ok(json_reply(OK, String::from_str(alloc, "{}")?))
    }

    /// The answer with these waiting orders.
    #[tactic(auto, using(crate::proofs::ReplyLemmas::no_order), unfolding(crate::specs::Reply::reply_of))]
    pub fn orders(alloc: Global, orders: &[Order]) -> Result<Reply, AllocError>
        ensures { IfOk result (λ reply. reply ≡ reply_of second (content.waiting_orders orders.now)) }
    {
        let mut text = String::from_str(alloc, "{\"orders\":[")?;
        let mut later = false;
        for order in orders {
            push_order(alloc, &mut text, later, order)?;
            later = true;
        }
        text.push_str("]}")?;
        Ok(json_reply(OK, text))
    }

    /// The answer with this machine and its interfaces.
    #[tactic(auto, unfolding(crate::specs::Reply::reply_of))]
    pub fn one_machine(
        alloc: Global,
        machine: &Machine,
        interfaces: &[Interface],
    ) -> Result<Reply, AllocError>
        ensures { IfOk result (λ reply. reply ≡ reply_of second (content.one_machine (listed machine.now interfaces.now))) }
    {
        let mut text = String::new(alloc);
        push_machine(alloc, &mut text, machine, interfaces)?;
        Ok(json_reply(OK, text))
    }

    /// The answer that a receipt keeps.
    #[tactic(auto, unfolding(crate::specs::Reply::reply_of))]
    pub fn stored(alloc: Global, receipt: &Receipt) -> Result<Reply, AllocError>
        ensures { IfOk result (λ reply. reply ≡ reply_of second (content.stored receipt.now.status receipt.now.body)) }
    {
        let body = receipt.body.copy(alloc)?;
        Ok(Reply::Http {
            status: receipt.status,
            kind: BodyKind::Json,
            body,
        })
    }

    /// The answer with the name of a boot file.
    #[tactic(auto, unfolding(crate::specs::Reply::reply_of))]
    pub fn boot_file(file: String) -> Reply
        ensures { result ≡ reply_of second (content.boot_file (string_bytes file)) }
    {
        Reply::File(Text::from(file))
    }
}

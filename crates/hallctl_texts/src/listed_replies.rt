//! Lists and machines, as the desk writes them.
ghost use Rattle.std.specs.Prelude.{◌≡◌, List, IfOk, IfSome, IsTrue};
ghost use Rattle.hall_types.specs.{Hall.second, declared.order.Order.Order};
ghost use Rattle.hall_events.specs.Reply.{ListedMachine, machine_list, one_machine, reply_of, waiting_orders, with_machine};
ghost use Rattle.hallctl_texts.specs.DeskAnswer.{Gives, IsReplyOf};

use crate::answers::{DeskAnswer, Question};
use crate::listings::objects;
use crate::machine_value::{machine_in, order_in, push_interfaces};
use hall_events::{MachineList, Reply};
use hall_types::{Machine, Order};
use serde_json::Value;
use std::alloc::{AllocError, Global};

// Writes the machine that an object is into the list, and says whether it is one.
fn push_object(alloc: Global, list: &mut MachineList, object: &Value) -> Result<bool, AllocError>
    ensures { IfOk result (λ read. IsTrue read → (machine : ListedMachine) × (list.new ≡ with_machine list.old machine)) }
{
    let Some(machine) = machine_in(object) else {
        return Ok(false);
    };
    let mut interfaces = Vec::new(alloc);
    if !push_interfaces(&mut interfaces, object, machine.id)? {
        return Ok(false);
    }
    list.push(alloc, &machine, interfaces.as_slice())?;
    Ok(true)
}

// The answer that lists the machines that these objects are, if they are machines.
fn machines_reply(alloc: Global, objects: &[Value]) -> Result<Option<Reply>, AllocError>
    ensures { IfOk result (λ reply. IfSome reply (λ reply. (machines : List ListedMachine) × (reply ≡ reply_of second (machine_list machines)))) }
{
    let mut list = MachineList::new(alloc, objects.len())?;
    for object in objects {
        if !push_object(alloc, &mut list, object)? {
            return Ok(None);
        }
    }
    let reply = list.finish()?;
    Ok(Some(reply))
}

// The answer that lists this machine, with the interfaces of its object, if those can be read.
fn machine_reply(
    alloc: Global,
    machine: &Machine,
    object: &Value,
) -> Result<Option<Reply>, AllocError>
    ensures { IfOk result (λ reply. IfSome reply (λ reply. (listed : ListedMachine) × (listed.machine.id ≡ machine.now.id) × (reply ≡ reply_of second (one_machine listed)))) }
{
    let mut interfaces = Vec::new(alloc);
    if !push_interfaces(&mut interfaces, object, machine.id)? {
        return Ok(None);
    }
    let reply = Reply::one_machine(alloc, machine, interfaces.as_slice())?;
    Ok(Some(reply))
}

// Adds the orders that these objects are, and says whether all are orders.
fn push_orders(orders: &mut Vec<Order>, objects: &[Value]) -> Result<bool, AllocError> {
    for object in objects {
        match order_in(object) {
            Some(order) => orders.push(order)?,
            None => return Ok(false),
        }
    }
    Ok(true)
}

// The answer that lists the orders that these objects are, if they are orders.
fn orders_reply(alloc: Global, objects: &[Value]) -> Result<Option<Reply>, AllocError>
    ensures { IfOk result (λ reply. IfSome reply (λ reply. (orders : List Order) × (reply ≡ reply_of second (waiting_orders orders)))) }
{
    let mut orders = Vec::new(alloc);
    if !push_orders(&mut orders, objects)? {
        return Ok(None);
    }
    let reply = Reply::orders(alloc, orders.as_slice())?;
    Ok(Some(reply))
}

/// The list or the machine that is asked for, as a value has it, if it has that. A list that isn't there is written as an empty one.
pub(crate) fn listed_reply(
    alloc: Global,
    question: &Question<'_>,
    value: &Value,
) -> Result<Option<Reply>, AllocError>
    ensures { IfOk result (λ reply. IfSome reply (IsReplyOf (Gives question.now DeskAnswer.Listed))) }
{
    match question {
        Question::Machines => machines_reply(alloc, objects(value, "machines").unwrap_or(&[])),
        Question::Orders => orders_reply(alloc, objects(value, "orders").unwrap_or(&[])),
        Question::Machine(id) => match machine_in(value) {
            Some(machine) if machine.id == *id => machine_reply(alloc, &machine, value),
            _ => Ok(None),
        },
        Question::Answer | Question::Command(_) => Ok(None),
    }
}

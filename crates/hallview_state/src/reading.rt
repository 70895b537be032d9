//! The desk's lists are read. A list is believed only if its octets are what the desk writes for what was read.
ghost use Rattle.std.specs.{Prelude.{◌≡◌, ◌↔◌, IfOk, IfSome, IsTrue, map}, List.Sorted.IsNonDecreasingBy};
ghost use Rattle.hall_types.specs.Hall.{second};
ghost use Rattle.hall_events.specs.Reply.{machine_list, reply_of};
ghost use Rattle.hallview_state.specs.Lists.{IsListOf, listed_of};

use crate::listed::Listed;
use hall_events::{BodyKind, MachineList, Reply};
use hallctl_texts::{machine_in, push_interfaces, value_of};
use serde_json::Value;
use std::alloc::{AllocError, Global};

fn push(machines: &mut Vec<Listed>, one: Listed) -> Result<(), AllocError> {
    machines.push(one)?;
    Ok(())
}

// The machines that these objects are, if all are machines.
fn machines_in(alloc: Global, objects: &[Value]) -> Result<Option<Vec<Listed>>, AllocError> {
    let mut machines = Vec::with_capacity(alloc, objects.len())?;
    for object in objects {
        let Some(machine) = machine_in(object) else {
            return Ok(None);
        };
        let mut interfaces = Vec::new(alloc);
        if !push_interfaces(&mut interfaces, object, machine.id)? {
            return Ok(None);
        }
        push(
            &mut machines,
            Listed {
                machine,
                interfaces,
            },
        )?;
    }
    Ok(Some(machines))
}

fn machines_at(alloc: Global, body: &str) -> Result<Option<Vec<Listed>>, AllocError> {
    let Some(value) = value_of(alloc, body.as_bytes())? else {
        return Ok(None);
    };
    match value.get("machines") {
        Some(Value::Array(objects)) => machines_in(alloc, objects.as_slice()),
        _ => Ok(None),
    }
}

/// The desk's answer that lists these machines.
pub(crate) fn list_reply(alloc: Global, machines: &[Listed]) -> Result<Reply, AllocError>
    ensures { IfOk result (λ reply. reply ≡ reply_of second (machine_list (map listed_of machines.now))) }
{
    let mut list = MachineList::new(alloc, machines.len())?;
    for one in machines {
        list.push(alloc, &one.machine, one.interfaces.as_slice())?;
    }
    list.finish()
}

fn is_reply(reply: &Reply, status: u16, body: &str) -> bool
    ensures { IsTrue result ↔ (reply.now ≡ Reply.Http status BodyKind.Json body.now) }
{
    match reply {
        Reply::Http {
            status: own,
            kind: BodyKind::Json,
            body: text,
        } => *own == status && text.as_str() == body,
        _ => false,
    }
}

// Whether the numbers of the machines rise.
fn are_rising(machines: &[Listed]) -> bool
    ensures { IsTrue result → IsNonDecreasingBy (λ one. one.machine.id) machines.now }
{
    machines.is_sorted_by(|one, next| one.machine.id.get() < next.machine.id.get())
}

/// The machines that a desk's answer to `GET /machines` lists, by its status and its body. `None` where they aren't the very octets that a
/// desk answers with a list, or where their numbers don't rise.
pub fn list_of(alloc: Global, status: u16, body: &str) -> Result<Option<Vec<Listed>>, AllocError>
    ensures list { IfOk result (λ list. IfSome list (λ machines. IsListOf machines.items status body.now)) }
    ensures rising { IfOk result (λ list. IfSome list (λ machines. IsNonDecreasingBy (λ one. one.machine.id) machines.items)) }
{
    let Some(machines) = machines_at(alloc, body)? else {
        return Ok(None);
    };
    let reply = list_reply(alloc, machines.as_slice())?;
    if are_rising(machines.as_slice()) && is_reply(&reply, status, body) {
        Ok(Some(machines))
    } else {
        Ok(None)
    }
}

//! What `GET /state.json` answers: what is known of the halls, as JSON (RFC 8259).
use crate::hall::Hall;
use crate::history::Sample;
use crate::listed::Listed;
use crate::moves::Move;
use crate::orders::Seen;
use crate::reading::list_reply;
use crate::state::State;
use hall_events::Reply;
use serde_json::Value;
use std::alloc::{AllocError, Global};

// A text as JSON has it.
fn quoted(alloc: Global, text: &str) -> Result<String, AllocError> {
    Value::try_from_str(alloc, text)?.to_string(alloc)
}

// A comma before all items but the first.
fn comma(text: &mut String, place: usize) -> Result<(), AllocError> {
    if place > 0 {
        text.push(',')?;
    }
    Ok(())
}

// The machines, each as the desk writes it.
fn push_machines(alloc: Global, text: &mut String, machines: &[Listed]) -> Result<(), AllocError> {
    let Reply::Http { body, .. } = list_reply(alloc, machines)? else {
        return Ok(());
    };
    let inner = body.as_str().strip_prefix("{").unwrap_or("");
    text.push_str(inner.strip_suffix("}").unwrap_or(inner))
}

fn push_moves(text: &mut String, moves: &[Move]) -> Result<(), AllocError> {
    for (place, step) in moves.iter().enumerate() {
        comma(text, place)?;
        let (at, id) = (step.at, step.machine.get());
        let (from, to) = (step.from.text(), step.to.text());
        write!(text, "[{at},{id},\"{from}\",\"{to}\"]")?;
    }
    Ok(())
}

fn push_orders(text: &mut String, orders: &[Seen]) -> Result<(), AllocError> {
    for (place, order) in orders.iter().enumerate() {
        comma(text, place)?;
        let (number, at) = (order.number.get(), order.at);
        write!(text, "[{number},{at}]")?;
    }
    Ok(())
}

fn push_history(text: &mut String, history: &[Sample]) -> Result<(), AllocError> {
    for (place, sample) in history.iter().enumerate() {
        comma(text, place)?;
        let at = sample.at;
        write!(text, "[{at},[")?;
        for (place, count) in sample.counts.iter().enumerate() {
            comma(text, place)?;
            write!(text, "{count}")?;
        }
        text.push_str("]]")?;
    }
    Ok(())
}

// The members of a hall that come before its lists.
fn push_members(alloc: Global, text: &mut String, hall: &Hall) -> Result<(), AllocError> {
    let (name, every, up) = (hall.name.text(), hall.every, hall.is_up());
    let desk = quoted(alloc, hall.desk.as_str())?;
    let fault = match hall.loss {
        Some(loss) => loss.text(alloc)?,
        None => String::new(alloc),
    };
    let fault = quoted(alloc, fault.as_str())?;
    write!(
        text,
        "{{\"name\":\"{name}\",\"desk\":{desk},\"every\":{every},\"up\":{up},\"fault\":{fault},"
    )?;
    match &hall.list {
        Some(list) => {
            let (at, took) = (list.at, list.took);
            write!(text, "\"listed\":{at},\"took_ms\":{took},")
        }
        None => text.push_str("\"listed\":null,\"took_ms\":0,"),
    }
}

fn push_hall(alloc: Global, text: &mut String, hall: &Hall) -> Result<(), AllocError> {
    push_members(alloc, text, hall)?;
    push_machines(alloc, text, hall.machines())?;
    text.push_str(",\"orders_seen\":[")?;
    push_orders(text, hall.orders.as_slice())?;
    text.push_str("],\"moves\":[")?;
    push_moves(text, hall.moves.as_slice())?;
    text.push_str("],\"history\":[")?;
    push_history(text, hall.history.as_slice())?;
    text.push_str("]}")
}

/// What is known of all halls. `machines` are as in the desks' lists; `moves` are `[moment,machine,from,to]`, `orders_seen`
/// `[number,moment]`, and `history` `[moment,counts]` by the statuses' numbers, each with the oldest first.
pub fn state_json(alloc: Global, state: &State, now: u64) -> Result<String, AllocError> {
    let (began, named) = (state.began, state.is_named);
    let mut text = format!(in alloc;
        "{{\"now\":{now},\"began\":{began},\"named\":{named},\"halls\":["
    )?;
    for (place, hall) in state.halls.iter().enumerate() {
        comma(&mut text, place)?;
        push_hall(alloc, &mut text, hall)?;
    }
    text.push_str("]}\n")?;
    Ok(text)
}

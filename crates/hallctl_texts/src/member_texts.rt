//! The texts of a machine's members, and of the list of orders.
use crate::answer_fault::AnswerFault;
use crate::columns::Column;
use crate::listings::{addresses, is_listed, objects};
use crate::members::number_at;
use crate::table::Table;
use serde_json::Value;
use std::alloc::{AllocError, Global};

// A text that is one line on a terminal, and no more.
fn is_plain(text: &str) -> bool {
    text.chars().all(|character| !character.is_control())
}

fn plain(value: &Value) -> Result<&str, AnswerFault> {
    match value.as_str() {
        Some(text) if is_plain(text) => Ok(text),
        _ => Err(AnswerFault::NotTheDesk),
    }
}

/// Adds one more item, with a comma before it if it's a later one.
pub(crate) fn push_item(text: &mut String, item: &str) -> Result<(), AllocError> {
    if !text.is_empty() {
        text.push(',')?;
    }
    text.push_str(item)
}

/// The text of a member. A dash stands for null.
pub(crate) fn value_text(alloc: Global, value: &Value) -> Result<String, AnswerFault> {
    match value {
        Value::Null => Ok(String::from_str(alloc, "-")?),
        Value::String(_) => Ok(String::from_str(alloc, plain(value)?)?),
        Value::Bool(_) | Value::Number(_) => Ok(value.to_string(alloc)?),
        Value::Array(_) | Value::Object(_) => Err(AnswerFault::NotTheDesk),
    }
}

/// A machine (the answer to `GET /machines/ID`, or an object of a list), a line `name: value` for each of its members, at a moment in
/// seconds since 1970, if that is known.
///
/// # Errors
///
/// `NotTheDesk` where the answer is no machine, and `Memory`.
pub fn machine_lines(
    alloc: Global,
    object: &Value,
    now: Option<u64>,
) -> Result<String, AnswerFault> {
    addresses(object)?;
    if !is_listed(object) {
        return Err(AnswerFault::NotTheDesk);
    }
    let mut text = String::new(alloc);
    for column in Column::ALL.as_slice() {
        let (name, value) = (column.name(), column.cell(alloc, object, now)?);
        text.push_str(format!(in alloc; "{name}: {value}\n")?.as_str())?;
    }
    Ok(text)
}

const HEADING: [&str; 3] = ["NUMBER", "KIND", "MACHINE"];

fn number_text(alloc: Global, order: &Value, name: &str) -> Result<String, AnswerFault> {
    let number = number_at(order, name).ok_or(AnswerFault::NotTheDesk)?;
    Ok(number.get().to_string(alloc)?)
}

fn push_order(alloc: Global, table: &mut Table, order: &Value) -> Result<(), AnswerFault> {
    let kind = order.get("kind").ok_or(AnswerFault::NotTheDesk)?;
    table.push(number_text(alloc, order, "number")?)?;
    table.push(String::from_str(alloc, plain(kind)?)?)?;
    table.push(number_text(alloc, order, "machine")?)?;
    Ok(())
}

/// The orders that wait (the answer to `GET /orders`), as a table under a heading.
///
/// # Errors
///
/// `NotTheDesk` where the answer is no such list, and `Memory`.
pub fn order_table(alloc: Global, answer: &Value) -> Result<String, AnswerFault> {
    let orders = objects(answer, "orders")?;
    let mut table = Table::new(alloc, HEADING.len());
    for text in HEADING.as_slice() {
        table.push(String::from_str(alloc, text)?)?;
    }
    for order in orders {
        push_order(alloc, &mut table, order)?;
    }
    Ok(table.text(alloc)?)
}

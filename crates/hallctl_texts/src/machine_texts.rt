//! The texts of lists of machines, and a machine in a list.
use crate::answer_fault::AnswerFault;
use crate::columns::Column;
use crate::listings::{address_in, addresses, objects};
use crate::machine_value::uuid_at;
use crate::member_texts::push_item;
use crate::members::number_at;
use crate::table::Table;
use hall_types::{MacAddress, MachineUuid, Number};
use serde_json::Value;
use std::alloc::{AllocError, Global};

// The member of a list's answer that has the list.
const MACHINES: &str = "machines";

fn heading(alloc: Global, columns: &[Column]) -> Result<Table, AllocError> {
    let mut table = Table::new(alloc, columns.len());
    for column in columns {
        table.push(column.name().to_ascii_uppercase(alloc)?)?;
    }
    Ok(table)
}

fn push_row(
    alloc: Global,
    table: &mut Table,
    columns: &[Column],
    object: &Value,
    now: Option<u64>,
) -> Result<(), AnswerFault> {
    for column in columns {
        table.push(column.cell(alloc, object, now)?)?;
    }
    Ok(())
}

/// Machines as a table with these columns under a heading, at a moment in seconds since 1970, if that is known.
///
/// # Errors
///
/// `NotTheDesk` where one isn't a machine as the desk lists it, and `Memory`.
pub fn machine_table(
    alloc: Global,
    machines: &[&Value],
    columns: &[Column],
    now: Option<u64>,
) -> Result<String, AnswerFault> {
    let mut table = heading(alloc, columns)?;
    for object in machines {
        push_row(alloc, &mut table, columns, object, now)?;
    }
    Ok(table.text(alloc)?)
}

/// The numbers of machines, one a line.
///
/// # Errors
///
/// `NotTheDesk` where one has no number, and `Memory`.
pub fn machine_ids(alloc: Global, machines: &[&Value]) -> Result<String, AnswerFault> {
    let mut text = String::new(alloc);
    for object in machines {
        let id = number_at(object, "id")
            .ok_or(AnswerFault::NotTheDesk)?
            .get();
        text.push_str(format!(in alloc; "{id}\n")?.as_str())?;
    }
    Ok(text)
}

/// A list of machines as JSON like the desk's: of all machines in their order it is the desk's answer itself.
pub fn machine_json(alloc: Global, machines: &[&Value]) -> Result<String, AllocError> {
    let mut text = String::new(alloc);
    for object in machines {
        push_item(&mut text, object.to_string(alloc)?.as_str())?;
    }
    format!(in alloc; "{{\"machines\":[{text}]}}")
}

/// The machine of a list that has a number, if one has it. The desk lists machines in the order of their numbers.
///
/// # Errors
///
/// `NotTheDesk` alone, where the answer is no such list.
pub fn machine_numbered(answer: &Value, number: Number) -> Result<Option<&Value>, AnswerFault> {
    let objects = objects(answer, MACHINES)?;
    let place = objects.partition_point(|object| match number_at(object, "id") {
        Some(id) => id.get() < number.get(),
        None => false,
    });
    match objects.get(place) {
        Some(object) if number_at(object, "id") == Some(number) => Ok(Some(object)),
        _ => Ok(None),
    }
}

// Whether a machine has this UUID.
fn has_uuid(object: &Value, uuid: Option<MachineUuid>) -> bool {
    match (uuid, uuid_at(object, "uuid")) {
        (Some(wanted), Some(own)) => own.octets() == wanted.octets(),
        _ => false,
    }
}

/// The number of the machine of a list that has a hardware address or a UUID, if one has it.
///
/// # Errors
///
/// `NotTheDesk` alone, where the answer is no such list.
pub fn holder_of(
    answer: &Value,
    address: MacAddress,
    uuid: Option<MachineUuid>,
) -> Result<Option<Number>, AnswerFault> {
    if let Some(object) = machine_with(answer, address)? {
        return Ok(number_at(object, "id"));
    }
    let mut objects = objects(answer, MACHINES)?.iter();
    Ok(
        objects
            .find(|object| has_uuid(object, uuid))
            .and_then(|object| number_at(object, "id")),
    )
}

/// The machine of a list that has a hardware address, if one has it.
///
/// # Errors
///
/// `NotTheDesk` alone, where the answer is no such list.
pub fn machine_with(answer: &Value, address: MacAddress) -> Result<Option<&Value>, AnswerFault> {
    for object in objects(answer, MACHINES)? {
        let mut addresses = addresses(object)?.iter();
        if addresses.any(|value| address_in(value) == Some(address)) {
            return Ok(Some(object));
        }
    }
    Ok(None)
}

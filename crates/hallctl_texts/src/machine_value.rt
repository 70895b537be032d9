//! A machine or an order as a list has it.
use crate::listings::address_in;
use crate::members::{count_at, name_at, name_or_null, number_at, or_null, state_at, text_at};
use hall_types::{
    BootCount, Erase, Interface, Machine, MachineUuid, Number, Order, OrderKind, OrderStage,
};
use serde_json::Value;
use std::alloc::AllocError;
use uuid::Uuid;

/// The UUID that a member has.
pub(crate) fn uuid_at(object: &Value, name: &str) -> Option<MachineUuid> {
    let uuid = Uuid::parse_str(text_at(object, name)?).ok()?;
    Some(MachineUuid::from(uuid.into_bytes()))
}

// How a machine's disks are erased.
fn erase_at(object: &Value) -> Option<Erase> {
    text_at(object, "erase")?.parse().ok()
}

/// The machine that an object of a list is. What a list doesn't say of a machine is as in a new one.
pub fn machine_in(object: &Value) -> Option<Machine> {
    let state = state_at(object)?;
    Some(Machine {
        id: state.id,
        arch: text_at(object, "arch")?.parse().ok()?,
        uuid: or_null(object, "uuid", uuid_at(object, "uuid"))?,
        pool: name_at(object, "pool")?,
        status: state.status,
        owner: name_or_null(object, "owner")?,
        image: name_or_null(object, "image")?,
        tests: false,
        back: None,
        erase: or_null(object, "erase", erase_at(object))?,
        locked: object.get("locked")?.as_bool()?,
        version: state.version,
        deadline: or_null(object, "deadline", count_at(object, "deadline"))?,
        boot: or_null(object, "boot", number_at(object, "boot"))?,
        boots: BootCount::NONE,
        waiting: or_null(object, "order", number_at(object, "order"))?,
    })
}

/// Adds the interfaces of the machine that an object of a list is, and says whether all of them could be read.
pub fn push_interfaces(
    interfaces: &mut Vec<Interface>,
    object: &Value,
    machine: Number,
) -> Result<bool, AllocError> {
    let Some(values) = object.get("interfaces").and_then(Value::as_array) else {
        return Ok(false);
    };
    for value in values.as_slice() {
        match address_in(value) {
            Some(mac) => interfaces.push(Interface { mac, machine })?,
            None => return Ok(false),
        }
    }
    Ok(true)
}

fn order_kind(word: &str) -> Option<OrderKind> {
    match word {
        "cycle" => Some(OrderKind::Cycle),
        "off" => Some(OrderKind::Off),
        _ => None,
    }
}

/// The order that an object of a list is.
pub(crate) fn order_in(object: &Value) -> Option<Order> {
    Some(Order {
        number: number_at(object, "number")?,
        machine: number_at(object, "machine")?,
        kind: order_kind(text_at(object, "kind")?)?,
        stage: OrderStage::Waiting,
    })
}

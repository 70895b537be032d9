//! Machines and orders as JSON values.
ghost use Rattle.std.specs.Prelude.{◌≡◌, IfOk};
ghost use Rattle.serde_json.specs.View.{view};
ghost use Rattle.hall_events.specs.Reply.{order_data, status_data};

use hall_types::{Machine, Order};
use serde_json::{Value, json};
use std::alloc::{AllocError, Global};

// A machine's number, status and version.
pub(crate) fn status_value(alloc: Global, machine: &Machine) -> Result<Value, AllocError>
    ensures { IfOk result (λ value. view value ≡ status_data machine.now.id machine.now.status machine.now.version) }
{
    json!(in alloc; {"id": machine.id.get(), "status": machine.status.text(), "version": machine.version.get()})
}

pub(crate) fn order_value(alloc: Global, order: &Order) -> Result<Value, AllocError>
    ensures { IfOk result (λ value. view value ≡ order_data order.now) }
{
    json!(in alloc; {"kind": order.kind.text(), "machine": order.machine.get(), "number": order.number.get()})
}

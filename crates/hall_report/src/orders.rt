//! The queue of power orders.
ghost use Rattle.std.specs.{Prelude.{◌≡◌, ◌≢◌, ◌++◌, IfErr, IfOk, OnOk, string_bytes}, Fmt.decimal, List.flat_map};
ghost use Rattle.hall_report.specs.{Prelude.Reads, Columns.in_right, Lines.{order_line, order_text}};

use crate::columns::{digits, push_right};
use crate::fault::ReportFault;
use hall_store::HallStore;
use hall_types::Order;
use std::alloc::{AllocError, Global};

// The width of a number's column: the highest number has 16 digits.
const NUMBER_WIDTH: usize = 16;

// Writes a number in its column.
fn push_number(alloc: Global, text: &mut String, number: u64) -> Result<(), AllocError>
    ensures { OnOk result (string_bytes text.new ≡ string_bytes text.old ++ in_right 16 (decimal number)) }
{
    let number = digits(alloc, number)?;
    push_right(text, NUMBER_WIDTH, number.as_str())
}

fn push_order(alloc: Global, text: &mut String, order: &Order) -> Result<(), AllocError>
    ensures { OnOk result (string_bytes text.new ≡ string_bytes text.old ++ order_line order.now) }
{
    push_number(alloc, text, order.number.get())?;
    text.push(' ')?;
    push_number(alloc, text, order.machine.get())?;
    text.push(' ')?;
    text.push_str(order.kind.text())?;
    text.push('\n')
}

fn push_orders(alloc: Global, text: &mut String, orders: &[Order]) -> Result<(), AllocError>
    ensures { OnOk result (string_bytes text.new ≡ string_bytes text.old ++ flat_map order_line orders.now) }
{
    for order in orders {
        push_order(alloc, text, order)?;
    }
    Ok(())
}

fn orders_text(alloc: Global, orders: &[Order]) -> Result<String, AllocError>
    ensures { IfOk result (λ text. string_bytes text ≡ flat_map order_line orders.now) }
{
    let mut text = String::new(alloc);
    push_orders(alloc, &mut text, orders)?;
    Ok(text)
}

/// The power orders that wait, by number, one a line: the order's number and its machine's, each at the right end of 16
/// columns, and `cycle` or `off`. The store isn't changed. The faults are `Unavailable` and `Memory`.
pub fn order_text<S: HallStore>(alloc: Global, store: &mut S) -> Result<String, ReportFault>
    ensures read { Reads S.HallStore store.old store.new result (λ h text. string_bytes text ≡ order_text h) }
    ensures fault { IfErr result (λ fault. fault ≢ ReportFault.NoMachine) }
{
    let orders = store.waiting_orders(alloc)?;
    Ok(orders_text(alloc, &orders)?)
}

//! The table of orders.
ghost use Rattle.sql_schema.specs.{Words.{state, HasCleanDisk, Survives, order_values, orders, order_kind_by_number, order_stage_by_number, same_kind}, Steps.{IsWritten, always}, TableStatements.with_item};
ghost use Rattle.std.{specs.Prelude.◌≡◌, proofs.Common.rules};

use hall_types::Order;
use sql_schema::creating::ADD_ORDER;
use sql_schema::{Table, kind_in, number_in, number_value, put, small_value};
use sqlite::{Alter, Error, Row, Transaction};

/// The orders that wait.
pub const LIST_WAITING_ORDERS: &str =
    "SELECT number, machine, kind, stage FROM orders WHERE stage = 0 ORDER BY number";

/// The orders of a machine go.
pub const REMOVE_ORDERS: &str = "DELETE FROM orders WHERE machine = ?1";

// An order, changed if it is there.
const SET_ORDER: &str =
    "UPDATE orders SET machine = ?2, kind = ?3, stage = ?4 WHERE number = ?1 RETURNING number";

/// The table of orders, by what it stores.
pub struct Orders;

impl Table for Orders {
    type Item = Order;

    ghost values = { order_values };

    fn read(row: &Row) -> Result<Order, Error> {
        if row.column_count() != 4 {
            return Err(Error::InvalidQuery);
        }
        Ok(Order {
            number: number_in(row, 0)?,
            machine: number_in(row, 1)?,
            kind: kind_in(row, 2)?,
            stage: kind_in(row, 3)?,
        })
    }

    ghost single = { Prim.search (rules, same_kind order_kind_by_number, same_kind order_stage_by_number) };
}

/// An order's row, new or in place of the one that has its key.
pub fn put_order<S: Alter>(tx: &mut Transaction<'_, S>, order: &Order) -> Result<(), Error>
    ensures same_reference { tx.new.conn.ghost_name ≡ tx.old.conn.ghost_name }
    ensures written { HasCleanDisk (state S.Store tx.new.conn.now) → IsWritten (state S.Store tx.old.conn.now) (state S.Store tx.new.conn.now) result always (λ c. with_item orders c order.now) }
    ensures survives { Survives (state S.Store tx.old.conn.now) (state S.Store tx.new.conn.now) (λ _. ⊥) }
{
    put(
        tx,
        SET_ORDER,
        ADD_ORDER,
        &[
            number_value(order.number.get()),
            number_value(order.machine.get()),
            small_value(order.kind.number()),
            small_value(order.stage.number()),
        ],
    )
}

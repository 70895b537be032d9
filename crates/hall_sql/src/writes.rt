//! One row write, by its kind.
ghost use Rattle.sql_schema.specs.Words.{state, HasCleanDisk, Survives};
ghost use Rattle.std.specs.Prelude.{◌≡◌};
ghost use Rattle.hall_sql.specs.Within.{IsRowWritten};

use crate::machines::{add_whole, set_whole};
use crate::removal::remove_machine;
use hall_types::RowWrite;
use sql_items::{
    add_image, add_interface, add_member, add_pool, add_receipt, put_boot, put_live, put_operator,
    put_order, remove_image, remove_interface, set_numbers,
};
use sqlite::{Alter, Error, Transaction};
use std::alloc::Global;

/// Writes one row inside a transaction. It is to keep the tables' rules. `alloc` is for the text of an image's arguments.
/// A machine's row that was to have another version is an error, and so is a machine that was to be new and is there, or one
/// whose deadline is past the greatest number of a column, 2^63 - 1.
pub(crate) fn write_row<S: Alter>(
    alloc: Global,
    tx: &mut Transaction<'_, S>,
    write: &RowWrite,
) -> Result<(), Error>
    ensures same_reference { tx.new.conn.ghost_name ≡ tx.old.conn.ghost_name }
    ensures written { HasCleanDisk (state S.Store tx.new.conn.now) → IsRowWritten (state S.Store tx.old.conn.now) (state S.Store tx.new.conn.now) result write.now }
    ensures survives { Survives (state S.Store tx.old.conn.now) (state S.Store tx.new.conn.now) (λ _. ⊥) }
{
    match write {
        RowWrite::PutOperator(operator) => put_operator(tx, operator),
        RowWrite::PutPool(pool) => add_pool(tx, pool),
        RowWrite::PutMember(member) => add_member(tx, member),
        RowWrite::PutImage(image) => add_image(alloc, tx, image),
        RowWrite::ImageGone(name) => remove_image(tx, name),
        RowWrite::PutLive(live) => put_live(tx, live),
        RowWrite::PutMachine { machine, was } => match was {
            Some(was) => set_whole(tx, machine, *was),
            None => add_whole(tx, machine),
        },
        RowWrite::MachineGone(id) => remove_machine(tx, *id),
        RowWrite::PutInterface(interface) => add_interface(tx, interface),
        RowWrite::InterfaceGone(mac) => remove_interface(tx, *mac),
        RowWrite::PutBoot(boot) => put_boot(tx, boot),
        RowWrite::PutOrder(order) => put_order(tx, order),
        RowWrite::PutReceipt(receipt) => add_receipt(tx, receipt),
        RowWrite::PutNumbers(numbers) => set_numbers(tx, *numbers),
    }
}

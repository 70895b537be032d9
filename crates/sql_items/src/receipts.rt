//! The table of receipts.
ghost use Rattle.sql_schema.specs.{Words.{state, column, HasCleanDisk, Survives, at, pair, number, receipt_columns, receipts}, Steps.IsWritten, TableStatements.with_item};
ghost use Rattle.std.{specs.Prelude.{◌≡◌, IfOk, None}, proofs.Common.rules};

use hall_types::{Receipt, RequestKey, Text};
use sql_schema::creating::ADD_RECEIPT;
use sql_schema::{
    Table, name_in, name_value, number_value, octets_in, octets_value, text_value, write,
};
use sqlite::{Alter, Error, Row, Transaction};

// The HTTP status in a column.
fn http_status_in(row: &Row, at: usize) -> Result<u16, Error>
    ensures { IfOk result (λ status. column row.now at ≡ number status) }
{
    u16::try_from(row.get::<u64>(at)?).map_err(|_| Error::IntegralValueOutOfRange(at))
}

/// The table of receipts, by what it stores.
pub struct Receipts;

impl Table for Receipts {
    type Item = Receipt;

    ghost values = { receipt_columns };

    fn read(row: &Row) -> Result<Receipt, Error> {
        if row.column_count() != 5 {
            return Err(Error::InvalidQuery);
        }
        Ok(Receipt {
            operator: name_in(row, 0)?,
            key: RequestKey::from(octets_in(row, 1)?),
            command: Text::from(row.get::<String>(2)?),
            status: http_status_in(row, 3)?,
            body: Text::from(row.get::<String>(4)?),
        })
    }

    ghost single = { Prim.search rules };
}

/// A new receipt, whose operator and key have to be free together.
pub fn add_receipt<S: Alter>(tx: &mut Transaction<'_, S>, receipt: &Receipt) -> Result<(), Error>
    ensures same_reference { tx.new.conn.ghost_name ≡ tx.old.conn.ghost_name }
    ensures written { HasCleanDisk (state S.Store tx.new.conn.now) → IsWritten (state S.Store tx.old.conn.now) (state S.Store tx.new.conn.now) result (λ c. at c.hall.receipts (pair receipt.now.operator receipt.now.key) ≡ None) (λ c. with_item receipts c receipt.now) }
    ensures survives { Survives (state S.Store tx.old.conn.now) (state S.Store tx.new.conn.now) (λ _. ⊥) }
{
    let key = receipt.key.octets();
    write(
        tx,
        ADD_RECEIPT,
        &[
            name_value(&receipt.operator),
            octets_value(&key),
            text_value(receipt.command.as_str()),
            number_value(u64::from(receipt.status)),
            text_value(receipt.body.as_str()),
        ],
    )
}

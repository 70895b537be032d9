//! The table of boots.
ghost use Rattle.sql_schema.specs.{Words.{state, HasCleanDisk, Survives, boot_values, boots, purpose_by_number, same_kind, stage_by_number}, Steps.{IsWritten, always}, TableStatements.with_item};
ghost use Rattle.std.{specs.Prelude.◌≡◌, proofs.Common.rules};

use hall_types::{Boot, Token};
use sql_schema::creating::ADD_BOOT;
use sql_schema::{
    Table, kind_in, number_in, number_value, octets_in, octets_value, put, small_value,
};
use sqlite::{Alter, Error, Row, Transaction};

/// The boots of a machine go.
pub const REMOVE_BOOTS: &str = "DELETE FROM boots WHERE machine = ?1";

// A boot, changed if it is there.
const SET_BOOT: &str =
    "UPDATE boots SET machine = ?2, purpose = ?3, token = ?4, stage = ?5 WHERE number = ?1 RETURNING number";

/// The table of boots, by what it stores.
pub struct Boots;

impl Table for Boots {
    type Item = Boot;

    ghost values = { boot_values };

    fn read(row: &Row) -> Result<Boot, Error> {
        if row.column_count() != 5 {
            return Err(Error::InvalidQuery);
        }
        Ok(Boot {
            number: number_in(row, 0)?,
            machine: number_in(row, 1)?,
            purpose: kind_in(row, 2)?,
            token: Token::from(octets_in(row, 3)?),
            stage: kind_in(row, 4)?,
        })
    }

    ghost single = { Prim.search (rules, same_kind purpose_by_number, same_kind stage_by_number) };
}

/// A boot's row, new or in place of the one that has its key.
pub fn put_boot<S: Alter>(tx: &mut Transaction<'_, S>, boot: &Boot) -> Result<(), Error>
    ensures same_reference { tx.new.conn.ghost_name ≡ tx.old.conn.ghost_name }
    ensures written { HasCleanDisk (state S.Store tx.new.conn.now) → IsWritten (state S.Store tx.old.conn.now) (state S.Store tx.new.conn.now) result always (λ c. with_item boots c boot.now) }
    ensures survives { Survives (state S.Store tx.old.conn.now) (state S.Store tx.new.conn.now) (λ _. ⊥) }
{
    let token = boot.token.octets();
    put(
        tx,
        SET_BOOT,
        ADD_BOOT,
        &[
            number_value(boot.number.get()),
            number_value(boot.machine.get()),
            small_value(boot.purpose.number()),
            octets_value(&token),
            small_value(boot.stage.number()),
        ],
    )
}

//! The table of operators.
ghost use Rattle.sql_schema.specs.{Words.{state, HasCleanDisk, Survives, operator_columns, same_truth, operators, role_by_number, same_kind}, Steps.{IsWritten, always}, TableStatements.with_item};
ghost use Rattle.std.{specs.Prelude.◌≡◌, proofs.Common.rules};

use hall_types::{Digest, Operator};
use sql_schema::creating::ADD_OPERATOR;
use sql_schema::{
    Table, kind_in, name_in, name_value, octets_in, octets_value, put, small_value, truth_in,
    truth_value,
};
use sqlite::{Alter, Error, Row, Transaction};

/// The operators with a digest.
pub const FIND_DIGEST: &str =
    "SELECT name, role, digest, enabled FROM operators WHERE digest = ?1 ORDER BY name";

// An operator, changed if it is there.
const SET_OPERATOR: &str =
    "UPDATE operators SET role = ?2, digest = ?3, enabled = ?4 WHERE name = ?1 RETURNING name";

/// The table of operators, by what it stores.
pub struct Operators;

impl Table for Operators {
    type Item = Operator;

    ghost values = { operator_columns };

    fn read(row: &Row) -> Result<Operator, Error> {
        if row.column_count() != 4 {
            return Err(Error::InvalidQuery);
        }
        Ok(Operator {
            name: name_in(row, 0)?,
            role: kind_in(row, 1)?,
            digest: Digest::from(octets_in(row, 2)?),
            enabled: truth_in(row, 3)?,
        })
    }

    ghost single = { Prim.search (rules, same_kind role_by_number, same_truth) };
}

/// An operator's row, new or in place of the one with its name.
pub fn put_operator<S: Alter>(tx: &mut Transaction<'_, S>, operator: &Operator) -> Result<(), Error>
    ensures same_reference { tx.new.conn.ghost_name ≡ tx.old.conn.ghost_name }
    ensures written { HasCleanDisk (state S.Store tx.new.conn.now) → IsWritten (state S.Store tx.old.conn.now) (state S.Store tx.new.conn.now) result always (λ c. with_item operators c operator.now) }
    ensures survives { Survives (state S.Store tx.old.conn.now) (state S.Store tx.new.conn.now) (λ _. ⊥) }
{
    let digest = operator.digest.octets();
    put(
        tx,
        SET_OPERATOR,
        ADD_OPERATOR,
        &[
            name_value(&operator.name),
            small_value(operator.role.number()),
            octets_value(&digest),
            truth_value(operator.enabled),
        ],
    )
}

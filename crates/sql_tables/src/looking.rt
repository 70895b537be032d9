//! What is asked of a file's tables, inside a transaction that writes nothing.
ghost use Rattle.sql_schema.specs.{Words.{state, HasCleanDisk, Survives}, Steps.IsStep};
ghost use Rattle.std.specs.Prelude.{◌≡◌, ◌≢◌, ⊤, ℤ, Err, IfOk, IfErr, map};
ghost use Rattle.sql_tables.specs.Opening.{AreFound, IsAnswerFor, IsFoundBy, IsOneRow, IsSchemaRow, IsVersionOf, NamesSchema, SaysSchema, wanted_number, wanted_rows};

use crate::fault::OpenFault;
use crate::running::ask;
use sql_schema::creating::{FIND_NUMBERS, READ_FIRST, READ_SECOND};
use sqlite::{Alter, Error, ErrorCode, Row, Transaction};

/// Which schema is looked for.
#[derive(Clone, Copy)]
pub(crate) enum Wanted {
    First,
    Second,
}

// A text that isn't understood over these tables, or a failure.
fn fault_of(error: &Error) -> OpenFault
    ensures missing { result ≡ OpenFault.NotAHall → (f : _) × (error.now ≡ Error.SqlInputError f) }
    ensures never { result ≢ OpenFault.OtherVersion }
{
    match error {
        Error::SqlInputError(_) => OpenFault::NotAHall,
        _ => OpenFault::Unavailable,
    }
}

// Whether each of these texts is understood over these tables.
fn understands<S: Alter>(tx: &mut Transaction<'_, S>, texts: &[&str]) -> Result<(), OpenFault>
    ensures same_reference { tx.new.conn.ghost_name ≡ tx.old.conn.ghost_name }
    ensures step { HasCleanDisk (state S.Store tx.new.conn.now) → IsStep (state S.Store tx.old.conn.now) (state S.Store tx.new.conn.now) result (λ _. (state S.Store tx.new.conn.now).now ≡ (state S.Store tx.old.conn.now).now) }
    ensures found { HasCleanDisk (state S.Store tx.new.conn.now) → AreFound (map (λ text. text.now) texts.now) (state S.Store tx.old.conn.now).now result }
    ensures survives { Survives (state S.Store tx.old.conn.now) (state S.Store tx.new.conn.now) (λ _. ⊥) }
{
    for text in texts {
        if let Err(error) = tx.prepare(text) {
            return Err(fault_of(&error));
        }
    }
    Ok(())
}

// Every table of the wanted schema but `hall`, with its columns.
fn has_tables<S: Alter>(tx: &mut Transaction<'_, S>, wanted: Wanted) -> Result<(), OpenFault>
    ensures same_reference { tx.new.conn.ghost_name ≡ tx.old.conn.ghost_name }
    ensures step { HasCleanDisk (state S.Store tx.new.conn.now) → IsStep (state S.Store tx.old.conn.now) (state S.Store tx.new.conn.now) result (λ _. ⊤) }
    ensures found { HasCleanDisk (state S.Store tx.new.conn.now) → AreFound (wanted_rows wanted) (state S.Store tx.old.conn.now).now result }
    ensures survives { Survives (state S.Store tx.old.conn.now) (state S.Store tx.new.conn.now) (λ _. ⊥) }
{
    if let Err(fault) = understands(tx, READ_FIRST) {
        return Err(fault);
    }
    match wanted {
        Wanted::First => Ok(()),
        Wanted::Second => understands(tx, READ_SECOND),
    }
}

// A value that can't be read is another's, unless memory was refused.
fn column_fault(error: &Error) -> OpenFault
    ensures memory { error.now ≡ Error.SqliteFailure ErrorCode.OutOfMemory → result ≡ OpenFault.Unavailable }
    ensures never { result ≢ OpenFault.OtherVersion }
{
    match error {
        Error::SqliteFailure(_) => OpenFault::Unavailable,
        _ => OpenFault::NotAHall,
    }
}

// The number of the schema in the one row.
fn schema_in(rows: &Vec<Row>) -> Result<i64, OpenFault>
    ensures said { (n : ℤ) → IsSchemaRow n rows.now.items → IfOk result (λ schema. schema ≡ n) × IfErr result (λ e. e ≡ OpenFault.Unavailable) }
    ensures one { IfOk result (λ schema. IsOneRow rows.now.items schema) }
    ensures never { result ≢ Err OpenFault.OtherVersion }
{
    if rows.len() != 1 {
        return Err(OpenFault::NotAHall);
    }
    match rows[0].get(0) {
        Ok(schema) => Ok(schema),
        Err(error) => Err(column_fault(&error)),
    }
}

fn number_of(wanted: Wanted) -> i64
    ensures { result ≡ wanted_number wanted }
{
    match wanted {
        Wanted::First => 1,
        Wanted::Second => 2,
    }
}

// Whether the schema in the one row is the one that is wanted.
fn version_in(rows: &Vec<Row>, wanted: Wanted) -> Result<(), OpenFault>
    ensures told { (n : ℤ) → IsSchemaRow n rows.now.items → IsVersionOf wanted n result }
    ensures found { IsFoundBy (IsOneRow rows.now.items) wanted result }
{
    let schema = match schema_in(rows) {
        Ok(schema) => schema,
        Err(fault) => return Err(fault),
    };
    if schema == number_of(wanted) {
        Ok(())
    } else {
        Err(OpenFault::OtherVersion)
    }
}

// Whether the schema is the one that is wanted: `hall` is asked for first, then its one row.
fn has_version<S: Alter>(tx: &mut Transaction<'_, S>, wanted: Wanted) -> Result<(), OpenFault>
    ensures same_reference { tx.new.conn.ghost_name ≡ tx.old.conn.ghost_name }
    ensures step { HasCleanDisk (state S.Store tx.new.conn.now) → IsStep (state S.Store tx.old.conn.now) (state S.Store tx.new.conn.now) result (λ _. (state S.Store tx.new.conn.now).now ≡ (state S.Store tx.old.conn.now).now) }
    ensures told { HasCleanDisk (state S.Store tx.new.conn.now) → (n : ℤ) → SaysSchema (state S.Store tx.old.conn.now).now n → IsVersionOf wanted n result }
    ensures found { HasCleanDisk (state S.Store tx.new.conn.now) → IsFoundBy (NamesSchema (state S.Store tx.old.conn.now).now) wanted result }
    ensures survives { Survives (state S.Store tx.old.conn.now) (state S.Store tx.new.conn.now) (λ _. ⊥) }
{
    if let Err(fault) = understands(tx, &[FIND_NUMBERS]) {
        return Err(fault);
    }
    match ask(tx, FIND_NUMBERS) {
        Ok(rows) => version_in(&rows, wanted),
        Err(_) => Err(OpenFault::Unavailable),
    }
}

/// Whether the tables are a hall's of this schema: `hall` first, then the number of the schema, then the others.
pub(crate) fn look<S: Alter>(tx: &mut Transaction<'_, S>, wanted: Wanted) -> Result<(), OpenFault>
    ensures same_reference { tx.new.conn.ghost_name ≡ tx.old.conn.ghost_name }
    ensures step { HasCleanDisk (state S.Store tx.new.conn.now) → IsStep (state S.Store tx.old.conn.now) (state S.Store tx.new.conn.now) result (λ _. ⊤) }
    ensures answered { HasCleanDisk (state S.Store tx.new.conn.now) → IsAnswerFor wanted (state S.Store tx.old.conn.now).now result }
    ensures survives { Survives (state S.Store tx.old.conn.now) (state S.Store tx.new.conn.now) (λ _. ⊥) }
{
    match has_version(tx, wanted) {
        Ok(()) => has_tables(tx, wanted),
        Err(fault) => Err(fault),
    }
}

//! Reads of rows between calls.
ghost use Rattle.sql_schema.specs.{Words.{option_to_list, state, bound, HasCleanDisk, Hall, IsTableRead}, Asking.Asks};
ghost use Rattle.std.specs.Prelude.{◌≡◌, IfOk, List, Option, map, slice_get};

use crate::table::Table;
use sqlite::types::ValueRef;
use sqlite::{Alter, Connection, Error, Row};
use std::alloc::Global;

// Each row as an item.
fn all_items<T: Table>(alloc: Global, rows: &Vec<Row>) -> Result<Vec<T::Item>, Error>
    ensures { IfOk result (λ items. rows.now.items ≡ map T.values items.items) }
{
    let mut items = Vec::new(alloc);
    'rows: for row in rows {
        let item = T::read(row)?;
        items.push(item)?;
    }
    Ok(items)
}

fn first_item<T: Table>(rows: &Vec<Row>) -> Result<Option<T::Item>, Error>
    ensures { IfOk result (λ found. (items : List T.Item) → rows.now.items ≡ map T.values items → found ≡ slice_get items 0) }
{
    match rows.first() {
        None => Ok(None),
        Some(row) => Ok(Some(T::read(row)?)),
    }
}

/// The items that a query shows, which is one that asks for items of the table.
pub fn ask_all<T: Table, S: Alter>(
    conn: &mut Connection<S>,
    alloc: Global,
    sql: &str,
    params: &[ValueRef<'_>],
) -> Result<Vec<T::Item>, Error>
    ensures clean { HasCleanDisk (state S.Store conn.new) → HasCleanDisk (state S.Store conn.old) }
    ensures asked { HasCleanDisk (state S.Store conn.new) → (right : Hall → List T.Item) → Asks T.values sql.now (bound params.now) right → IsTableRead (state S.Store conn.old) (state S.Store conn.new) result (λ h items. items.items ≡ right h) }
{
    match conn.query_all(sql, params) {
        Ok(rows) => all_items::<T>(alloc, &rows),
        Err(error) => Err(error),
    }
}

/// The first of the items that a query shows, if it shows any.
pub fn ask_first<T: Table, S: Alter>(
    conn: &mut Connection<S>,
    sql: &str,
    params: &[ValueRef<'_>],
) -> Result<Option<T::Item>, Error>
    ensures clean { HasCleanDisk (state S.Store conn.new) → HasCleanDisk (state S.Store conn.old) }
    ensures asked { HasCleanDisk (state S.Store conn.new) → (right : Hall → List T.Item) → Asks T.values sql.now (bound params.now) right → IsTableRead (state S.Store conn.old) (state S.Store conn.new) result (λ h found. found ≡ slice_get (right h) 0) }
{
    match conn.query_all(sql, params) {
        Ok(rows) => first_item::<T>(&rows),
        Err(error) => Err(error),
    }
}

/// The one item that a query shows, if there is one.
pub fn ask_one<T: Table, S: Alter>(
    conn: &mut Connection<S>,
    sql: &str,
    params: &[ValueRef<'_>],
) -> Result<Option<T::Item>, Error>
    ensures clean { HasCleanDisk (state S.Store conn.new) → HasCleanDisk (state S.Store conn.old) }
    ensures asked { HasCleanDisk (state S.Store conn.new) → (right : Hall → Option T.Item) → Asks T.values sql.now (bound params.now) (λ h. option_to_list (right h)) → IsTableRead (state S.Store conn.old) (state S.Store conn.new) result (λ h found. found ≡ right h) }
{
    ask_first::<T, S>(conn, sql, params)
}

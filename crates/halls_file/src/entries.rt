//! The halls of a file.
ghost use Rattle.std.specs.{Prelude.{◌≡◌, ◌++◌, ◌∷◌, [], map, option_and_then, option_copied, IfOk, OnOk}, List.Sorted.IsStrictlySortedBy, Ordering.nat_cmp, Cmp.Lexicographic.slice_cmp};
ghost use Rattle.toml.specs.{View.{table_view, view}, Parse.parse_document};
ghost use Rattle.halls_file.specs.Halls.{Answers, bounded_halls, hall_of, halls_in, halls_of, seen, table_in, text_at, with_ok};

use crate::halls_fault::HallsFault;
use hall_types::Name;
use std::alloc::{AllocError, Global};
use toml::{Table, Value};

/// The maximum of halls of a file.
pub const MAX_HALLS: usize = 256;

// The members of a hall.
const MEMBERS: usize = 2;

/// A hall, as a file names it.
#[derive(Drop)]
pub struct HallEntry {
    pub name: Name,
    /// The desk's address, as `http://desk.berlin.example`.
    pub desk: String,
    /// The path of the file whose first line is the operator's token, as `beside` finds it.
    pub token_file: String,
}

fn text_at<'t>(table: &'t Table, key: &str) -> Option<&'t str>
    ensures { option_copied result ≡ text_at key.now (table_view table.now) }
{
    match table.get(key) {
        Some(value) => value.as_str(),
        None => None,
    }
}

fn entry_of(
    alloc: Global,
    name: Name,
    desk: &str,
    token_file: &str,
) -> Result<HallEntry, AllocError>
    ensures { IfOk result (λ entry. seen entry ≡ record { name = name; desk = desk.now; token_file = token_file.now }) }
{
    Ok(HallEntry {
        name,
        desk: String::from_str(alloc, desk)?,
        token_file: String::from_str(alloc, token_file)?,
    })
}

// The hall of a name and its value.
#[tactic(auto, unfolding(crate::specs::Halls::hall_of), using(crate::proofs::HallLemmas::hall_steps))]
fn entry(alloc: Global, name: &str, value: &Value) -> Result<HallEntry, HallsFault>
    ensures named { IfOk result (λ entry. entry.name ≡ name.now) }
    ensures hall { Answers (with_ok seen result) (hall_of name.now (view value.now)) }
{
    let Ok(name) = Name::new(name) else {
        return Err(HallsFault::Name);
    };
    let Some(table) = value.as_table() else {
        return Err(HallsFault::Table);
    };
    let Some(desk) = text_at(table, "desk") else {
        return Err(HallsFault::Desk);
    };
    let Some(token_file) = text_at(table, "token_file") else {
        return Err(HallsFault::TokenFile);
    };
    if table.len() != MEMBERS {
        return Err(HallsFault::Member);
    }
    Ok(entry_of(alloc, name, desk, token_file)?)
}

fn push(entries: &mut Vec<HallEntry>, entry: HallEntry) -> Result<(), AllocError>
    ensures { OnOk result (entries.new.items ≡ entries.old.items ++ entry ∷ []) }
{
    entries.push(entry)?;
    Ok(())
}

// The halls of all tables.
fn entries_of(alloc: Global, tables: &Table) -> Result<Vec<HallEntry>, HallsFault>
    ensures halls { Answers (with_ok (λ entries. map seen entries.items) result) (halls_of (table_view tables.now)) }
    ensures rising { IfOk result (λ entries. IsStrictlySortedBy (slice_cmp nat_cmp) (map (λ entry. entry.name) entries.items)) }
{
    let mut entries = Vec::new(alloc);
    'tables: for (name, value) in tables.iter() {
        let entry = entry(alloc, name.as_str(), value)?;
        push(&mut entries, entry)?;
    }
    Ok(entries)
}

// The halls of a table of tables, if these are few enough.
#[tactic(auto, using(crate::proofs::HallLemmas::hall_steps))]
fn bounded_entries(alloc: Global, tables: &Table) -> Result<Vec<HallEntry>, HallsFault>
    ensures halls { Answers (with_ok (λ entries. map seen entries.items) result) (bounded_halls (table_view tables.now)) }
    ensures rising { IfOk result (λ entries. IsStrictlySortedBy (slice_cmp nat_cmp) (map (λ entry. entry.name) entries.items)) }
{
    if tables.is_empty() {
        return Err(HallsFault::NoHall);
    }
    if tables.len() > MAX_HALLS {
        return Err(HallsFault::TooMany);
    }
    entries_of(alloc, tables)
}

fn tables(alloc: Global, text: &str) -> Result<Table, HallsFault>
    ensures { Answers (with_ok (λ tables. table_view tables) result) (table_in text.now) }
{
    match toml::table_from_str(alloc, text) {
        Ok(tables) => Ok(tables),
        Err(error) if error.is_memory() => Err(HallsFault::Memory),
        Err(_) => Err(HallsFault::Toml),
    }
}

/// The halls that a text of TOML names, in the order of their names: each is a table with `desk`, the address of its desk, and
/// `token_file`, the path of the file of the operator's token.
///
/// # Errors
///
/// In this order: `Toml`, `NoHall`, `TooMany`; then of the halls, in the order of their names, `Name`, `Table`, `Desk`, `TokenFile` and
/// `Member`. `Memory` may come in the place of each.
pub fn parse(alloc: Global, text: &str) -> Result<Vec<HallEntry>, HallsFault>
    ensures halls { Answers (with_ok (λ entries. map seen entries.items) result) (halls_in text.now) }
    ensures rising { IfOk result (λ entries. IsStrictlySortedBy (slice_cmp nat_cmp) (map (λ entry. entry.name) entries.items)) }
{
    let tables = tables(alloc, text)?;
    bounded_entries(alloc, &tables)
}

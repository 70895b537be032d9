//! Which machines of a list are wanted, and in which order.
ghost use Rattle.std.specs.Prelude.{◌≡◌, ◌≢◌, ◌∷◌, ◌++◌, IfOk, IfErr, IsOk, MatchBool, MatchResult, OnOk, [], false, is_some, map};
ghost use Rattle.std.specs.List.Sorted.{IsPermutation};
ghost use Rattle.serde_json.specs.View.{view};
ghost use Rattle.hallctl_texts.specs.{Choice.{AreInOrder, IsBarred, IsChosen, IsLetThrough, IsNoList, MayBeLeft, PicksOf, SomeSaysNone, keyed_views, views}, Listings.listed_at};

use crate::answer_fault::AnswerFault;
use crate::columns::Column;
use crate::listings::{Filter, lets_through, listed, objects};
use serde_json::Value;
use std::alloc::{AllocError, Global};
use std::cmp::Ordering;

/// Those that a filter lets through and that show a text in a column, in upper or lower case, in the order of a column.
#[derive(Clone, Copy)]
pub struct Choice<'a> {
    pub filter: Filter,
    pub search: Option<&'a str>,
    pub sort: Option<Column>,
}

// A machine, and what the column shows of it by which machines are sorted.
#[derive(Drop)]
struct Keyed<'v> {
    key: String,
    object: &'v Value,
}

// Whether a machine shows a text, which is in lower case.
fn shows(alloc: Global, object: &Value, text: &str) -> Result<bool, AnswerFault> {
    for column in Column::ALL.as_slice() {
        let cell = column.plain_cell(alloc, object)?.to_ascii_lowercase(alloc)?;
        if cell.contains(text) {
            return Ok(true);
        }
    }
    Ok(false)
}

// Whether a filter lets the machine of an object through.
fn is_let_through(object: &Value, filter: &Filter) -> Result<bool, AnswerFault>
    ensures { MatchResult result (λ is_let. MatchBool is_let (IsLetThrough filter.now (view object.now)) (IsBarred filter.now (view object.now))) (λ fault. listed_at (view object.now) ≡ None) }
{
    match listed(object) {
        Ok(machine) => Ok(lets_through(filter, &machine)),
        Err(fault) => Err(fault),
    }
}

fn is_wanted(
    alloc: Global,
    object: &Value,
    filter: &Filter,
    search: Option<&str>,
) -> Result<bool, AnswerFault>
    ensures wanted { IfOk result (λ wanted. MatchBool wanted (IsLetThrough filter.now (view object.now)) (MayBeLeft filter.now (is_some search.entry) (view object.now))) }
    ensures fault { IfErr result (λ fault. is_some search.entry ≡ false → listed_at (view object.now) ≡ None) }
{
    if !is_let_through(object, filter)? {
        return Ok(false);
    }
    match search {
        Some(text) => shows(alloc, object, text),
        None => Ok(true),
    }
}

// Texts that are numbers without leading zeros are in the order of these.
fn order_of(are_numbers: bool, one: &str, other: &str) -> Ordering {
    if are_numbers && one.len() != other.len() {
        return one.len().cmp(&other.len());
    }
    one.cmp(other)
}

fn key_of(alloc: Global, object: &Value, sort: Option<Column>) -> Result<String, AnswerFault>
    ensures { sort ≡ None → IsOk result }
{
    match sort {
        Some(column) => column.plain_cell(alloc, object),
        None => Ok(String::new(alloc)),
    }
}

fn push<'v>(machines: &mut Vec<Keyed<'v>>, machine: Keyed<'v>) -> Result<(), AllocError>
    ensures { OnOk result (keyed_views machines.new.items ≡ keyed_views machines.old.items ++ view machine.entry.object.now ∷ []) }
{
    machines.push(machine)?;
    Ok(())
}

fn wanted<'v>(
    alloc: Global,
    objects: &'v [Value],
    choice: &Choice<'_>,
    search: Option<&str>,
) -> Result<Vec<Keyed<'v>>, AnswerFault>
    ensures picks { IfOk result (λ machines. PicksOf choice.now.filter (is_some search.entry) (map view objects.now) (keyed_views machines.items)) }
    ensures fault { IfErr result (λ fault. is_some search.entry ≡ false → choice.now.sort ≡ None → fault ≢ AnswerFault.Memory → SomeSaysNone (map view objects.now)) }
{
    let mut machines = Vec::new(alloc);
    for object in objects {
        if is_wanted(alloc, object, &choice.filter, search)? {
            let key = key_of(alloc, object, choice.sort)?;
            push(&mut machines, Keyed { key, object })?;
        }
    }
    Ok(machines)
}

fn sort(machines: &mut Vec<Keyed<'_>>, column: Column) -> Result<(), AllocError>
    ensures { IsPermutation (keyed_views machines.old.items) (keyed_views machines.new.items) }
{
    let are_numbers = column.is_of_numbers();
    machines.sort_by(|one, other| order_of(are_numbers, one.key.as_str(), other.key.as_str()))
}

// Puts machines into the order of a column, if there is one.
fn put_in_order(machines: &mut Vec<Keyed<'_>>, column: Option<Column>) -> Result<(), AllocError>
    ensures { AreInOrder column (keyed_views machines.old.items) (keyed_views machines.new.items) }
{
    match column {
        Some(column) => sort(machines, column),
        None => Ok(()),
    }
}

fn objects_of<'v>(alloc: Global, machines: &[Keyed<'v>]) -> Result<Vec<&'v Value>, AllocError>
    ensures { IfOk result (λ objects. views objects.items ≡ keyed_views machines.now) }
{
    let mut objects = Vec::with_capacity(alloc, machines.len())?;
    for machine in machines {
        objects.push(machine.object)?;
    }
    Ok(objects)
}

fn lower_case(alloc: Global, search: Option<&str>) -> Result<Option<String>, AllocError>
    ensures { IfOk result (λ lower. is_some lower ≡ is_some search.entry) }
{
    match search {
        Some(text) => Ok(Some(text.to_ascii_lowercase(alloc)?)),
        None => Ok(None),
    }
}

// The machines that are chosen, where the text that they show is in lower case.
fn found<'v>(
    alloc: Global,
    answer: &'v Value,
    choice: &Choice<'_>,
    search: Option<&str>,
) -> Result<Vec<&'v Value>, AnswerFault>
    ensures chosen { is_some search.entry ≡ is_some choice.now.search → IfOk result (λ machines. IsChosen choice.now (view answer.now) (views machines.items)) }
    ensures fault { IfErr result (λ fault. is_some search.entry ≡ false → choice.now.sort ≡ None → fault ≢ AnswerFault.Memory → IsNoList (view answer.now)) }
{
    let mut machines = wanted(alloc, objects(answer, "machines")?, choice, search)?;
    put_in_order(&mut machines, choice.sort)?;
    Ok(objects_of(alloc, machines.as_slice())?)
}

/// The machines of a list (the answer to `GET /machines`) that are chosen. Without a column they are in the order of the list.
///
/// # Errors
///
/// `NotTheDesk` where the answer is no such list, and `Memory`.
pub fn chosen<'v>(
    alloc: Global,
    answer: &'v Value,
    choice: &Choice<'_>,
) -> Result<Vec<&'v Value>, AnswerFault>
    ensures chosen { IfOk result (λ machines. IsChosen choice.now (view answer.now) (views machines.items)) }
    ensures fault { IfErr result (λ fault. choice.now.search ≡ None → choice.now.sort ≡ None → fault ≢ AnswerFault.Memory → IsNoList (view answer.now)) }
{
    let search = lower_case(alloc, choice.search)?;
    let text = search.as_ref().map(|text| text.as_str());
    found(alloc, answer, choice, text)
}

//! Machines as the desk lists them.
ghost use Rattle.std.specs.Prelude.{◌≡◌, ◌↔◌, IsTrue, MatchResult, is_some, map, ok_or};
ghost use Rattle.serde_json.specs.View.{view};
ghost use Rattle.hallctl_texts.specs.{Listings.{Agrees, LetsThrough, Owns, listed_at}, Members.list_at};

use crate::answer_fault::AnswerFault;
use crate::members::{array_at, name_at, name_or_null, number_at, status_at, version_at};
use hall_types::{MacAddress, Name, Number, Status, Version};
use serde_json::Value;

/// What a listing says of a machine.
#[derive(Clone, Copy)]
pub struct ListedMachine {
    pub id: Number,
    pub status: Status,
    pub version: Version,
    pub pool: Name,
    pub owner: Option<Name>,
    pub image: Option<Name>,
}

/// Which machines a list has: those that have each of the values that are given.
#[derive(Clone, Copy)]
pub struct Filter {
    pub status: Option<Status>,
    pub pool: Option<Name>,
    pub owner: Option<Name>,
}

#[tactic(auto, unfolding(crate::specs::Listings::listed_at))]
fn listed_at(object: &Value) -> Option<ListedMachine>
    ensures { result ≡ listed_at (view object.now) }
{
    Some(ListedMachine {
        id: number_at(object, "id")?,
        status: status_at(object)?,
        version: version_at(object, "version")?,
        pool: name_at(object, "pool")?,
        owner: name_or_null(object, "owner")?,
        image: name_or_null(object, "image")?,
    })
}

/// What an object of a listing, or the answer to `GET /machines/ID`, says of its machine.
///
/// # Errors
///
/// `NotTheDesk` alone, where a member is missing or of another kind.
pub fn listed(object: &Value) -> Result<ListedMachine, AnswerFault>
    ensures { result ≡ ok_or (listed_at (view object.now)) AnswerFault.NotTheDesk }
{
    match listed_at(object) {
        Some(machine) => Ok(machine),
        None => Err(AnswerFault::NotTheDesk),
    }
}

/// Whether an object says of a machine what a listing does.
pub(crate) fn is_listed(object: &Value) -> bool
    ensures { result ≡ is_some (listed_at (view object.now)) }
{
    listed_at(object).is_some()
}

/// The objects of a list, of which the answer has this one.
pub(crate) fn objects<'a>(answer: &'a Value, name: &str) -> Result<&'a [Value], AnswerFault>
    ensures { MatchResult result (λ objects. list_at name.now (view answer.now) ≡ Some (map view objects.now)) (λ fault. (fault ≡ AnswerFault.NotTheDesk) × (list_at name.now (view answer.now) ≡ None)) }
{
    match array_at(answer, name) {
        Some(list) => Ok(list.as_slice()),
        None => Err(AnswerFault::NotTheDesk),
    }
}

/// The hardware addresses of a machine.
pub(crate) fn addresses(object: &Value) -> Result<&[Value], AnswerFault> {
    objects(object, "interfaces")
}

/// A hardware address in a list of them.
pub(crate) fn address_in(value: &Value) -> Option<MacAddress> {
    value.as_str()?.parse().ok()
}

fn has_status(wanted: Option<Status>, status: Status) -> bool
    ensures { IsTrue result ↔ Agrees wanted status }
{
    match wanted {
        Some(wanted) => wanted == status,
        None => true,
    }
}

fn has_pool(wanted: Option<Name>, pool: Name) -> bool
    ensures { IsTrue result ↔ Agrees wanted pool }
{
    match wanted {
        Some(wanted) => wanted == pool,
        None => true,
    }
}

fn has_owner(wanted: Option<Name>, owner: Option<Name>) -> bool
    ensures { IsTrue result ↔ Owns wanted owner }
{
    match (wanted, owner) {
        (Some(wanted), Some(owner)) => wanted == owner,
        (Some(_), None) => false,
        (None, _) => true,
    }
}

/// Whether a filter lets a machine through: it has each of the values that are given.
pub fn lets_through(filter: &Filter, machine: &ListedMachine) -> bool
    ensures { IsTrue result ↔ LetsThrough filter.now machine.now }
{
    has_status(filter.status, machine.status)
        && has_pool(filter.pool, machine.pool)
        && has_owner(filter.owner, machine.owner)
}

//! Which members an object has.
ghost use Rattle.std.specs.{Prelude.{◌≡◌, ◌||◌, is_some, option_map}, List.list_all};
ghost use Rattle.hall_http.specs.{Prelude.{as_object, view, members_view}, Body.{texts, names_of, is_among, is_allowed, has_all, has_only, fits}};

use serde_json::{Map, Value};

// Whether a name is one of these.
fn is_among(names: &[&str], name: &str) -> bool
    ensures { result ≡ is_among (texts names.now) name.now }
{
    for one in names {
        if *one == name {
            return true;
        }
    }
    false
}

fn is_allowed(common: &[&str], own: &[&str], optional: &[&str], name: &str) -> bool
    ensures { result ≡ is_allowed (texts common.now) (texts own.now) (texts optional.now) name.now }
{
    is_among(common, name) || is_among(own, name) || is_among(optional, name)
}

fn has_all(json: &Value, names: &[&str]) -> bool
    ensures { result ≡ has_all (texts names.now) (view json.now) }
{
    for name in names {
        if json.get(*name).is_none() {
            return false;
        }
    }
    true
}

// Whether each member's name is one of these.
#[tactic(auto, using(crate::proofs::ShapeLemmas::names_of_members_view))]
fn are_allowed(
    members: &Map<String, Value>,
    common: &[&str],
    own: &[&str],
    optional: &[&str],
) -> bool
    ensures { result ≡ list_all (is_allowed (texts common.now) (texts own.now) (texts optional.now)) (names_of (members_view members.now.entries)) }
{
    for name in members.keys() {
        if !is_allowed(common, own, optional, name.as_str()) {
            return false;
        }
    }
    true
}

pub(crate) fn has_only(json: &Value, common: &[&str], own: &[&str], optional: &[&str]) -> bool
    ensures { result ≡ has_only (texts common.now) (texts own.now) (texts optional.now) (as_object (view json.now)) }
{
    match json.as_object() {
        Some(members) => are_allowed(members, common, own, optional),
        None => false,
    }
}

// Whether a value is an object with each common and each own member, perhaps the optional ones, and no
// other.
pub(crate) fn fits(json: &Value, common: &[&str], own: &[&str], optional: &[&str]) -> bool
    ensures { result ≡ fits (texts common.now) (texts own.now) (texts optional.now) (view json.now) }
{
    has_only(json, common, own, optional) && has_all(json, common) && has_all(json, own)
}

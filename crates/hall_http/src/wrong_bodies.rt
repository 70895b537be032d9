//! Why a body says no command, for a log.
use crate::body::value_of;
use crate::command::{common_members, kind_at, optional_members, own_members};
use crate::image::image_at;
use crate::member::{
    arch_at, digest_at, erase_at, key_at, mac_at, name_at, number_at, role_at, tests_at, uri_at,
    uuid_at, version_at, words_at,
};
use crate::shape::has_only;
use hall_events::CommandKind;
use serde_json::Value;
use std::alloc::{AllocError, Global};

/// Why a body says no command (RFC 8259 section 4): the first cause of this order.
#[derive(Clone, Copy)]
pub enum BodyFault {
    /// It is no object of JSON, or names no command that there is.
    NoCommand,
    /// It has no member of this name.
    Missing(CommandKind, &'static str),
    /// It has a member that such a command doesn't have.
    Other(CommandKind),
    /// The value of the member of this name is of another kind, or out of its range.
    Bad(CommandKind, &'static str),
}

fn first_missing(json: &Value, names: &[&'static str]) -> Option<&'static str> {
    names.iter().copied().find(|name| json.get(*name).is_none())
}

fn is_there<T: Drop>(value: Option<T>) -> bool {
    value.is_some()
}

// Whether a member has a value that can be, by its name; an optional one may be absent.
fn is_good(alloc: Global, json: &Value, name: &str) -> Result<bool, AllocError> {
    Ok(match name {
        "key" => key_at(json).is_some(),
        "machine" => number_at(json, name).is_some(),
        "version" => version_at(json).is_some(),
        "uuid" => uuid_at(json).is_some(),
        "mac" => mac_at(json).is_some(),
        "arch" => arch_at(json).is_some(),
        "role" => role_at(json).is_some(),
        "digest" => digest_at(json).is_some(),
        "tests" => tests_at(json).is_some(),
        "erase" => erase_at(json).is_some(),
        "kernel" | "initrd" => is_there(uri_at(alloc, json, name)?),
        "args" => is_there(words_at(alloc, json)?),
        "operator" | "pool" | "image" => name_at(json, name).is_some(),
        _ => true,
    })
}

fn first_bad(
    alloc: Global,
    json: &Value,
    names: &[&'static str],
) -> Result<Option<&'static str>, AllocError> {
    for name in names {
        if !is_good(alloc, json, name)? {
            return Ok(Some(*name));
        }
    }
    Ok(None)
}

fn bad_member(
    alloc: Global,
    json: &Value,
    kind: CommandKind,
) -> Result<Option<&'static str>, AllocError> {
    for names in [
        common_members(kind),
        own_members(kind),
        optional_members(kind),
    ] {
        if let Some(name) = first_bad(alloc, json, names)? {
            return Ok(Some(name));
        }
    }
    // Words that are good each for itself may be too many, or begin `hall.`.
    if matches!(kind, CommandKind::AddImage) && !is_there(image_at(alloc, json)?) {
        return Ok(Some("args"));
    }
    Ok(None)
}

fn fault_in(alloc: Global, json: &Value) -> Result<Option<BodyFault>, AllocError> {
    let Some(kind) = kind_at(json) else {
        return Ok(Some(BodyFault::NoCommand));
    };
    let (common, own) = (common_members(kind), own_members(kind));
    let missing = first_missing(json, common).or(first_missing(json, own));
    if let Some(name) = missing {
        return Ok(Some(BodyFault::Missing(kind, name)));
    }
    if !has_only(json, common, own, optional_members(kind)) {
        return Ok(Some(BodyFault::Other(kind)));
    }
    Ok(bad_member(alloc, json, kind)?.map(|name| BodyFault::Bad(kind, name)))
}

/// Why a body says no command: nothing where it says one. Its names are the desk's own, and no octet of
/// the body is in it. The error is want of memory.
pub fn body_fault(alloc: Global, body: &[u8]) -> Result<Option<BodyFault>, AllocError> {
    match value_of(alloc, body)? {
        Some(json) => fault_in(alloc, &json),
        None => Ok(Some(BodyFault::NoCommand)),
    }
}

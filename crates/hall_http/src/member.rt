//! The values of an object's members, where they are of the kind that is asked for.
ghost use Rattle.std.specs.Prelude.{◌≡◌, IfOk, option_copied, option_map};
ghost use Rattle.hall_http.specs.{Prelude.view, Member.{text_at, number_at, name_at, uri_at, key_at, version_at, mac_at, digest_at, uuid_at, arch_at, role_at, tests_at, erase_at, words_at, progress_at, outcome_at}};

use crate::value::{erase_of, number_of, uri_of, uuid_octets, uuid_of, version_of, words_of};
use hall_types::{
    Digest, Erase, MacAddress, MachineUuid, Name, Number, Outcome, Progress, RequestKey, Role,
    Version,
};
use ipxe_script::{Uri, Word};
use pxe_vendor::Arch;
use serde_json::Value;
use std::alloc::{AllocError, Global};

pub(crate) fn text_at<'j>(json: &'j Value, name: &str) -> Option<&'j str>
    ensures { option_copied result ≡ text_at name.now (view json.now) }
{
    json.get(name).and_then(Value::as_str)
}

pub(crate) fn number_at(json: &Value, name: &str) -> Option<Number>
    ensures { result ≡ number_at name.now (view json.now) }
{
    number_of(json.get(name)?)
}

pub(crate) fn name_at(json: &Value, name: &str) -> Option<Name>
    ensures { result ≡ name_at name.now (view json.now) }
{
    text_at(json, name)?.parse().ok()
}

pub(crate) fn uri_at(alloc: Global, json: &Value, name: &str) -> Result<Option<Uri>, AllocError>
    ensures { IfOk result (λ uri. uri ≡ uri_at name.now (view json.now)) }
{
    match text_at(json, name) {
        Some(text) => uri_of(alloc, text),
        None => Ok(None),
    }
}

pub(crate) fn key_at(json: &Value) -> Option<RequestKey>
    ensures { result ≡ key_at (view json.now) }
{
    let octets = uuid_octets(text_at(json, "key")?)?;
    Some(RequestKey::from(octets))
}

pub(crate) fn version_at(json: &Value) -> Option<Option<Version>>
    ensures { result ≡ version_at (view json.now) }
{
    version_of(json.get("version"))
}

pub(crate) fn mac_at(json: &Value) -> Option<MacAddress>
    ensures { result ≡ mac_at (view json.now) }
{
    text_at(json, "mac")?.parse().ok()
}

pub(crate) fn digest_at(json: &Value) -> Option<Digest>
    ensures { result ≡ digest_at (view json.now) }
{
    text_at(json, "digest")?.parse().ok()
}

pub(crate) fn uuid_at(json: &Value) -> Option<Option<MachineUuid>>
    ensures { result ≡ uuid_at (view json.now) }
{
    uuid_of(json.get("uuid"))
}

pub(crate) fn arch_at(json: &Value) -> Option<Arch>
    ensures { result ≡ arch_at (view json.now) }
{
    text_at(json, "arch")?.parse().ok()
}

pub(crate) fn role_at(json: &Value) -> Option<Role>
    ensures { result ≡ role_at (view json.now) }
{
    text_at(json, "role")?.parse().ok()
}

pub(crate) fn tests_at(json: &Value) -> Option<bool>
    ensures { result ≡ tests_at (view json.now) }
{
    json.get("tests")?.as_bool()
}

pub(crate) fn erase_at(json: &Value) -> Option<Option<Erase>>
    ensures { result ≡ erase_at (view json.now) }
{
    erase_of(json.get("erase")?)
}

pub(crate) fn words_at(alloc: Global, json: &Value) -> Result<Option<Vec<Word>>, AllocError>
    ensures { IfOk result (λ words. option_map (λ words. words.items) words ≡ words_at (view json.now)) }
{
    match json.get("args").and_then(Value::as_array) {
        Some(values) => words_of(alloc, values),
        None => Ok(None),
    }
}

pub(crate) fn progress_at(json: &Value) -> Option<Progress>
    ensures { result ≡ progress_at (view json.now) }
{
    text_at(json, "stage")?.parse().ok()
}

pub(crate) fn outcome_at(json: &Value) -> Option<Outcome>
    ensures { result ≡ outcome_at (view json.now) }
{
    text_at(json, "outcome")?.parse().ok()
}

//! What the values of a command's members mean.
ghost use Rattle.std.specs.Prelude.{◌≡◌, IfOk, option_map};
ghost use Rattle.hall_http.specs.{Prelude.{parsed, view, items_view, erase_of_text, arch_in}, Value.{count_of, number_of, version_of, uuid_of_text, uuid_of_value, uuid_of, erase_of, erase_of_word, word_of, uri_of, words_of}};

use hall_types::{Erase, MachineUuid, Number, Version};
use ipxe_script::{Uri, Word, WordFault};
use serde_json::Value;
use std::alloc::{AllocError, Global};
use uuid::Uuid;

// The number that a value is.
pub(crate) fn number_of(value: &Value) -> Option<Number>
    ensures { result ≡ number_of (view value.now) }
{
    Number::new(value.as_u64()?).ok()
}

fn version_number(value: &Value) -> Option<Version>
    ensures { result ≡ number_of (view value.now) }
{
    Version::new(value.as_u64()?).ok()
}

// The version that a member says, where it is there.
pub(crate) fn version_of(member: Option<&Value>) -> Option<Option<Version>>
    ensures { result ≡ version_of (option_map (λ value. view value.now) member.entry) }
{
    match member {
        None => Some(None),
        Some(value) => Some(Some(version_number(value)?)),
    }
}

/// The octets of a UUID, in one of its four spellings.
pub fn uuid_octets(text: &str) -> Option<[u8; 16]>
    ensures { result ≡ parsed text.now }
{
    match Uuid::parse_str(text) {
        Ok(uuid) => Some(uuid.into_bytes()),
        Err(_) => None,
    }
}

fn uuid_of_text(text: &str) -> Option<MachineUuid>
    ensures { result ≡ uuid_of_text text.now }
{
    MachineUuid::identifying(uuid_octets(text)?)
}

fn uuid_of_value(value: &Value) -> Option<Option<MachineUuid>>
    ensures { result ≡ uuid_of_value (view value.now) }
{
    match value {
        Value::Null => Some(None),
        Value::String(text) => Some(Some(uuid_of_text(text.as_str())?)),
        Value::Bool(_) | Value::Number(_) | Value::Array(_) | Value::Object(_) => None,
    }
}

// The UUID that a member says; it may be absent or null.
pub(crate) fn uuid_of(member: Option<&Value>) -> Option<Option<MachineUuid>>
    ensures { result ≡ uuid_of (option_map (λ value. view value.now) member.entry) }
{
    match member {
        None => Some(None),
        Some(value) => uuid_of_value(value),
    }
}

fn erase_of_word(word: &str) -> Option<Option<Erase>>
    ensures { result ≡ erase_of_word word.now }
{
    if word == "none" {
        return Some(None);
    }
    Some(Some(word.parse().ok()?))
}

// The erasing that a value asks for.
pub(crate) fn erase_of(value: &Value) -> Option<Option<Erase>>
    ensures { result ≡ erase_of (view value.now) }
{
    match value {
        Value::Bool(true) => Some(Some(Erase::Full)),
        Value::Bool(false) => Some(None),
        Value::String(word) => erase_of_word(word.as_str()),
        _ => None,
    }
}

// The word of a script with this text.
fn word_of(alloc: Global, text: &str) -> Result<Option<Word>, AllocError>
    ensures { IfOk result (λ word. word ≡ word_of text.now) }
{
    match Word::new(alloc, text) {
        Ok(word) => Ok(Some(word)),
        Err(WordFault::BadWord) => Ok(None),
        Err(WordFault::Memory) => Err(AllocError),
    }
}

// The URI with this text.
pub(crate) fn uri_of(alloc: Global, text: &str) -> Result<Option<Uri>, AllocError>
    ensures { IfOk result (λ uri. uri ≡ uri_of text.now) }
{
    match Uri::new(alloc, text) {
        Ok(uri) => Ok(Some(uri)),
        Err(WordFault::BadWord) => Ok(None),
        Err(WordFault::Memory) => Err(AllocError),
    }
}

// The words of an array of texts.
pub(crate) fn words_of(alloc: Global, values: &[Value]) -> Result<Option<Vec<Word>>, AllocError>
    ensures { IfOk result (λ words. option_map (λ words. words.items) words ≡ words_of (items_view values.now)) }
{
    let mut words = Vec::with_capacity(alloc, values.len())?;
    for value in values {
        let Some(text) = value.as_str() else {
            return Ok(None);
        };
        let Some(word) = word_of(alloc, text)? else {
            return Ok(None);
        };
        words.push(word)?;
    }
    Ok(Some(words))
}

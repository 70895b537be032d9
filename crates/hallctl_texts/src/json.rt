//! The value of a text of JSON.
ghost use Rattle.std.specs.Prelude.{◌≡◌, IfOk, option_map};
ghost use Rattle.serde_json.specs.{Read.read as read_text, View.view};

use serde_json::Value;
use std::alloc::{AllocError, Global};

/// The value of a text, if it is one of JSON.
pub(crate) fn value_in(alloc: Global, text: &str) -> Result<Option<Value>, AllocError>
    ensures { IfOk result (λ value. option_map view value ≡ read_text text.now) }
{
    match Value::from_str(alloc, text) {
        Ok(value) => Ok(Some(value)),
        Err(error) if error.is_memory() => Err(AllocError),
        Err(_) => Ok(None),
    }
}

/// The value of octets that are a text of JSON.
pub fn value_of(alloc: Global, octets: &[u8]) -> Result<Option<Value>, AllocError> {
    match std::str::from_utf8(octets) {
        Ok(text) => value_in(alloc, text),
        Err(_) => Ok(None),
    }
}

//! Bodies as JSON values.
ghost use Rattle.std.specs.Prelude.{◌≡◌, IfOk, option_copied, option_map};
ghost use Rattle.hall_http.specs.{Prelude.view, Body.{data_of, text_of}};

use serde_json::Value;
use std::alloc::{AllocError, Global};

/// The octets, if they are UTF-8.
pub fn text_of(octets: &[u8]) -> Option<&str>
    ensures { option_copied result ≡ text_of octets.now }
{
    match std::str::from_utf8(octets) {
        Ok(text) => Some(text),
        Err(_) => None,
    }
}

// The JSON value that a body is, if it is one.
pub(crate) fn value_of(alloc: Global, body: &[u8]) -> Result<Option<Value>, AllocError>
    ensures { IfOk result (λ value. option_map view value ≡ data_of body.now) }
{
    let Some(text) = text_of(body) else {
        return Ok(None);
    };
    match Value::from_str(alloc, text) {
        Ok(value) => Ok(Some(value)),
        Err(error) => {
            if error.is_memory() {
                Err(AllocError)
            } else {
                Ok(None)
            }
        }
    }
}

//! Texts of JSON, of which almost none needs an escape (RFC 8259 section 7).
ghost use Rattle.std.specs.{Prelude.{◌≡◌, ◌++◌, OnOk, string_bytes}, List.list_all};
ghost use Rattle.serde_json.specs.{Data.string, Written.compact_text};
ghost use Rattle.hall_events.specs.WrittenMachine.{is_plain};

use serde_json::Value;
use std::alloc::{AllocError, Global};

// Whether an octet stands for itself.
fn is_plain(octet: u8) -> bool
    ensures { result ≡ is_plain octet }
{
    octet >= 32 && octet != b'"' && octet != b'\\'
}

fn are_plain(octets: &[u8]) -> bool
    ensures { result ≡ list_all is_plain octets.now }
{
    octets.iter().all(|octet| is_plain(*octet))
}

// Writes a text with its escapes.
fn push_escaped(alloc: Global, text: &mut String, word: &str) -> Result<(), AllocError>
    ensures { OnOk result (string_bytes text.new ≡ string_bytes text.old ++ compact_text (string word.now)) }
{
    let word = Value::try_from_str(alloc, word)?.to_string(alloc)?;
    text.push_str(word.as_str())
}

/// Writes a text between quotation marks.
pub(crate) fn push_text(alloc: Global, text: &mut String, word: &str) -> Result<(), AllocError>
    ensures { OnOk result (string_bytes text.new ≡ string_bytes text.old ++ compact_text (string word.now)) }
{
    if !are_plain(word.as_bytes()) {
        return push_escaped(alloc, text, word);
    }
    text.push_str("\"")?;
    text.push_str(word)?;
    text.push_str("\"")?;
    Ok(())
}

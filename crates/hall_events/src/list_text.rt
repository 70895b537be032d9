//! Lists that are written item by item, so that no tree of all items is held.
ghost use Rattle.std.specs.Prelude.{◌≡◌, ◌++◌, false, OnOk, string_bytes};
ghost use Rattle.serde_json.specs.{View.view, Written.{comma_if as comma_before, compact_text, has_float}};

use serde_json::Value;
use std::alloc::{AllocError, Global};

pub(crate) fn comma_if(later: bool) -> &'static str
    ensures { result.now ≡ comma_before later }
{
    if later { "," } else { "" }
}

// One more item, with a comma before it if it's a later one.
pub(crate) fn push_item(
    alloc: Global,
    text: &mut String,
    later: bool,
    item: &Value,
) -> Result<(), AllocError>
    requires { has_float (view item.now) ≡ false }
    ensures { OnOk result (string_bytes text.new ≡ string_bytes text.old ++ (comma_before later ++ compact_text (view item.now))) }
{
    let item = item.to_string(alloc)?;
    text.push_str(comma_if(later))?;
    text.push_str(item.as_str())
}

//! What the members of an object of JSON say.
ghost use Rattle.std.specs.Prelude.{◌≡◌, option_copied, option_map};
ghost use Rattle.serde_json.specs.{Find.get, View.{items_view, view}};
ghost use Rattle.hallctl_texts.specs.Members.{array_at, count_at, name_at, name_or_null, number_at, or_null, refusal_at, state_at, status_at, text_at};

use crate::answers::MachineState;
use hall_types::{Name, Number, Refusal, Status, Version};
use serde_json::Value;

/// A number from 0 up.
pub(crate) fn count_at(object: &Value, name: &str) -> Option<u64>
    ensures { result ≡ count_at name.now (view object.now) }
{
    object.get(name)?.as_u64()
}

pub(crate) fn number_at(object: &Value, name: &str) -> Option<Number>
    ensures { result ≡ number_at name.now (view object.now) }
{
    Number::new(count_at(object, name)?).ok()
}

pub(crate) fn version_at(object: &Value, name: &str) -> Option<Version>
    ensures { result ≡ number_at name.now (view object.now) }
{
    Version::new(count_at(object, name)?).ok()
}

pub(crate) fn text_at<'j>(object: &'j Value, name: &str) -> Option<&'j str>
    ensures { option_copied result ≡ text_at name.now (view object.now) }
{
    object.get(name).and_then(Value::as_str)
}

pub(crate) fn array_at<'j>(object: &'j Value, name: &str) -> Option<&'j Vec<Value>>
    ensures { option_map (λ list. items_view list.now.items) result ≡ array_at name.now (view object.now) }
{
    object.get(name).and_then(Value::as_array)
}

pub(crate) fn status_at(object: &Value) -> Option<Status>
    ensures { result ≡ status_at (view object.now) }
{
    text_at(object, "status")?.parse().ok()
}

/// The refusal that an object names.
#[tactic(auto, unfolding(crate::specs::Members::refusal_at))]
pub(crate) fn refusal_at(object: &Value) -> Option<Refusal>
    ensures { result ≡ refusal_at (view object.now) }
{
    text_at(object, "refusal")?.parse().ok()
}

/// A machine's number, status and version.
#[tactic(auto, unfolding(crate::specs::Members::state_at))]
pub fn state_at(object: &Value) -> Option<MachineState>
    ensures { result ≡ state_at (view object.now) }
{
    Some(MachineState {
        id: number_at(object, "id")?,
        status: status_at(object)?,
        version: version_at(object, "version")?,
    })
}

pub(crate) fn name_at(object: &Value, name: &str) -> Option<Name>
    ensures { result ≡ name_at name.now (view object.now) }
{
    text_at(object, name)?.parse().ok()
}

/// What was found in a member that isn't null, or that it is null; `None` where it is missing, or nothing was found.
pub(crate) fn or_null<T: Drop>(object: &Value, name: &str, found: Option<T>) -> Option<Option<T>>
    ensures { result ≡ or_null found (get name.now (view object.now)) }
{
    if object.get(name)?.is_null() {
        return Some(None);
    }
    Some(Some(found?))
}

/// The name that a member says, or that it is null.
pub(crate) fn name_or_null(object: &Value, name: &str) -> Option<Option<Name>>
    ensures { result ≡ name_or_null name.now (view object.now) }
{
    or_null(object, name, name_at(object, name))
}

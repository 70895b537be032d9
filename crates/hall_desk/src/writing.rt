//! Writing what was planned.
ghost use Rattle.std.specs.Prelude.{◌≡◌, ⊤, []};
ghost use Rattle.hall_desk.specs.Plan.{CarriesOut};

use hall_store::{HallStore, Unavailable};
use hall_types::Change;

/// Writes the rows of a change, if there are any.
pub(crate) fn write<S: HallStore>(store: &mut S, change: &Change) -> Result<(), Unavailable>
    ensures carried { CarriesOut S.HallStore store.old store.new result (λ h. change.now) (λ h answer. ⊤) }
    ensures idle { change.now ≡ [] → store.new ≡ store.old }
{
    if change.writes().is_empty() {
        return Ok(());
    }
    store.apply(change)
}

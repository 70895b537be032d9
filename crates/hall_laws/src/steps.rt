//! Laws of every step of the model.
ghost use Rattle.std.specs.Prelude.{◌≡◌, ℕ, List};
ghost use Rattle.hall_laws.specs.{Prelude.{Site, Hall, applied, new_hall, second, AllKeep, Event, IsSound}, Decision.decision_of, Step.{IsRun, IsStep, Step}};

use boot_desk::{decisions_keep_halls_sound, new_halls_are_sound};
use desk_command::commands_keep_halls_sound;

/// A sound hall of the second schema stays one, whatever comes to it, at any moment and with any fresh octets: when the
/// rows of a decision are written, at each step, and over a run. So every hall in a run from a new hall is sound.
pub fn steps_keep_halls_sound()
    ensures rows { (site : Site) (h : Hall) (event : Event) (moment : ℕ) (fresh : List ℕ)
        → IsSound h → h.schema ≡ second → IsSound (applied (decision_of site h event moment fresh).rows h) }
    ensures schema { (site : Site) (h : Hall) (event : Event) (moment : ℕ) (fresh : List ℕ)
        → (applied (decision_of site h event moment fresh).rows h).schema ≡ h.schema }
    ensures step { (s : Step)
        → IsStep s → IsSound s.before → s.before.schema ≡ second → IsSound s.after × (s.after.schema ≡ second) }
    ensures run { (h end : Hall) (steps : List Step)
        → IsRun h steps end → IsSound h → h.schema ≡ second → IsSound end × (end.schema ≡ second) }
    ensures from_new { (admin digest : List ℕ) (end : Hall) (steps : List Step)
        → IsRun (new_hall second admin digest) steps end → IsSound end × (end.schema ≡ second) }
{
    new_halls_are_sound();
    decisions_keep_halls_sound();
    commands_keep_halls_sound();
}

/// Each row that a decision writes into a sound hall of the second schema keeps the tables' rules, in the hall that the
/// rows before it left: it is new where the table asks for a new one, what it refers to is recorded, and an image that
/// goes isn't referred to.
pub fn decisions_keep_the_rules()
    ensures { (site : Site) (h : Hall) (event : Event) (moment : ℕ) (fresh : List ℕ)
        → IsSound h → h.schema ≡ second → AllKeep (decision_of site h event moment fresh).rows h }
{
    steps_keep_halls_sound();
}

//! Laws of what came to a hall since it was new.
ghost use Rattle.std.specs.Prelude.{ℕ, List, [], ◌∷◌, ◌++◌};
ghost use Rattle.hall_desk.specs.{Prelude.{Site, Hall, IsRun, Step}, Headline.Headline, History.{AllLead, AreStepsOf, BeginsWith, Item, ItemLeads, Origin, exchanges}, Octets.IsArrivalRun, Stops.{AreAnswered, AreGiven}, declared.arrival.{Answer.Answer, Arrival.Arrival}};

use hall_laws::laws_hold_from_origins;

/// What came is a run of the model: each arrival that asked the hall and came is one step of it, whose content was sent, and
/// each event that was carried out is one; all others changed nothing.
pub fn items_are_steps()
    ensures { (h : Hall) (items : List Item) (end : Hall) → AllLead h items end
        → (steps : List Step) × IsRun h steps end × AreStepsOf items steps }
{}

/// What comes goes on from what came before it, at the same place or another.
pub fn histories_go_on()
    ensures runs { (h : Hall) (past : List Item) (now : Hall) → AllLead h past now
        → (site : Site) (arrivals : List Arrival) (answers : List Answer) (end : Hall) → IsArrivalRun site now arrivals answers end
        → AllLead h (past ++ exchanges site arrivals answers) end }
    ensures item { (h : Hall) (past : List Item) (now : Hall) → AllLead h past now
        → (item : Item) (end : Hall) → ItemLeads now item end → AllLead h (past ++ item ∷ []) end }
{}

/// Arrivals that were answered, and none by what is said where it counts as not having come, were given their answers, whatever hall they
/// came to.
pub fn answered_are_given()
    ensures { (site : Site) (h : Hall) (arrivals : List Arrival) (answers : List Answer) → AreAnswered arrivals answers → AreGiven site h arrivals answers }
{}

/// Whatever came to a hall since it was new, or carried over from the first schema, it is a run of the model that keeps all laws of the
/// past, and leads to a sound hall. What comes is of its type, since no place, fresh octets or image can be made otherwise.
pub fn histories_keep_the_laws()
    ensures { (origin : Origin) (begin : Hall) (items : List Item) (end : Hall) → BeginsWith origin begin → AllLead begin items end
        → Headline origin items end }
{
    items_are_steps();
    laws_hold_from_origins();
}

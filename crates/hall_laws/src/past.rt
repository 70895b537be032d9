//! The laws of the past.
ghost use Rattle.std.specs.Prelude.{◌≡◌, ℕ, List};
ghost use Rattle.hall_laws.specs.{Prelude.{Hall, new_hall, second, IsSound}, Step.{IsRun, Step}, Laws.{AcceptsOnce, AcceptsWithOk, Always, AlwaysFromNew, AlwaysWaitsForOne, AnswersAccepted, BootsLocally, CountsAnswerOnce, CountsOwnBoot, CountsStartedFirst, CountsVerdictOnce, DeploysRightly, EntersByTable, ErasesRightly, GivesScripts, KeepsMachines, NumbersOnce, QueuesAtEntries, RaisesVersions, RefusesWithoutChange, RepeatsFirst, ScriptIsAsked, WaitsForOne, WaitsNoMore}, Past.AtEachStep};

use crate::model::refusals_change_nothing;
use crate::steps::steps_keep_halls_sound;
use boot_desk::{deploying_texts, erasing_texts, new_halls_are_sound};

/// A Deployed machine that asks for its script is told to boot its own disk, and nothing changes.
pub fn local_boots()
    ensures { Always BootsLocally }
{
    steps_keep_halls_sound();
    boot_desk::local_boot();
}

/// No number of a machine, a boot or an order is issued twice, not even once its row is gone.
pub fn numbers_once()
    ensures { Always NumbersOnce }
{
    steps_keep_halls_sound();
}

/// A script is given to no one but who asked for one.
pub fn scripts_are_asked()
    ensures { Always ScriptIsAsked }
{
    steps_keep_halls_sound();
}

/// Every text that is given is a script, within the limits of scripts.
pub fn texts_are_scripts()
    ensures { AlwaysFromNew GivesScripts }
{
    new_halls_are_sound();
    steps_keep_halls_sound();
}

/// A script whose text has a kernel erase disks is given only to a machine in Disk erasing, whose last entry was made by
/// an accepted release with erasing, by the operator who was its owner just before; and the text names the kind of erasing
/// that this release named. What arrivals bring is of its type: no argument of an image begins `hall.`.
pub fn erasing_is_released()
    ensures { AlwaysFromNew ErasesRightly }
{
    new_halls_are_sound();
    steps_keep_halls_sound();
    refusals_change_nothing();
    erasing_texts();
}

/// A script whose text has a kernel write an image to the disk is given only to a machine in Deploying, whose last entry was
/// made by an accepted deploy, by the operator who was its owner just before; and the script boots the kernel and the
/// initrd of the image that this deploy named, as it was recorded then.
pub fn deploying_is_commanded()
    ensures { AlwaysFromNew DeploysRightly }
{
    new_halls_are_sound();
    steps_keep_halls_sound();
    refusals_change_nothing();
    deploying_texts();
}

/// A report counts only if its number and its token are those of its machine's own boot: the last one that was issued for
/// the machine, with no entry since but the one from Entering rescue into Rescue.
pub fn own_boots()
    ensures { (admin digest : List ℕ) (end : Hall) (steps : List Step)
        → IsRun (new_hall second admin digest) steps end → AtEachStep CountsOwnBoot steps }
{
    new_halls_are_sound();
    steps_keep_halls_sound();
}

/// Of a boot at most one report that it has started counts, before all its other reports, and at most one verdict.
pub fn reports_count_once()
    ensures started { Always CountsStartedFirst }
    ensures verdict { Always CountsVerdictOnce }
{
    steps_keep_halls_sound();
}

/// Each entry of a machine is its making, or a row of the life cycle's table, whose signal an accepted command gave, a
/// counted report of a boot of this machine, a counted answer to an order of it, its deadline, or a fourth boot.
pub fn entries_by_table()
    ensures { Always EntersByTable }
{
    steps_keep_halls_sound();
    refusals_change_nothing();
}

/// Of an operator's requests with one key at most one command is accepted, with the status 200. Every later request with that key
/// is answered as the first one was if it is the same command, and `KeyReused` if it is another (`UnknownToken` once the
/// operator is disabled), and changes nothing. A request that is answered by the status 200 has had its command accepted: with what
/// stands before, once, however often it came.
pub fn request_keys()
    ensures once { Always AcceptsOnce }
    ensures ok { Always AcceptsWithOk }
    ensures again { Always RepeatsFirst }
    ensures accepted { (admin digest : List ℕ) (end : Hall) (steps : List Step)
        → IsRun (new_hall second admin digest) steps end → AtEachStep AnswersAccepted steps }
{
    new_halls_are_sound();
    steps_keep_halls_sound();
}

/// Of the orders of a machine one waits at most, and none while it is Deployed. An order is queued only at an entry of its
/// machine, with the kind of that entry's row, and never waits again once it doesn't. An answer counts at most once for each
/// order, and never after the order was withdrawn.
pub fn orders_and_answers()
    ensures waits { (h end : Hall) (steps : List Step)
        → IsSound h → h.schema ≡ second → IsRun h steps end → WaitsForOne end }
    ensures always { Always AlwaysWaitsForOne }
    ensures queued { Always QueuesAtEntries }
    ensures again { Always WaitsNoMore }
    ensures answered { Always CountsAnswerOnce }
{
    steps_keep_halls_sound();
    refusals_change_nothing();
}

/// A machine stays, unless it is deleted by an accepted command.
pub fn machines_stay()
    ensures { Always KeepsMachines }
{
    steps_keep_halls_sound();
    refusals_change_nothing();
}

/// A machine's version is one more afterwards exactly if another column of its row, or its set of interfaces, is different. The last
/// version stays.
pub fn versions_rise_by_changes()
    ensures { Always RaisesVersions }
{
    steps_keep_halls_sound();
}

/// What is refused changes nothing, nor does a client's frame that isn't answered.
#[tactic(auto, using(crate::proofs::AnswerLemmas::all_leave))]
pub fn refusals_leave_the_hall()
    ensures { (h end : Hall) (steps : List Step) → IsRun h steps end → AtEachStep RefusesWithoutChange steps }
{
    refusals_change_nothing();
}

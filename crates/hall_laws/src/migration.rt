//! Laws of halls of the first schema, and of their runs.
ghost use Rattle.std.specs.{Prelude.{◌≡◌, ℕ, false, List, ◌++◌, Option, Some, None}, List.AllByRecursion};
ghost use Rattle.hall_laws.specs.{Prelude.{Hall, first, new_hall, second, BootImage, has_hall_word, Boot, Erase, Purpose, Content, ListedMachine, machine_list, one_machine, reply_of, IsSound, work_script}, Migration.IsMigrated, Step.{Arrival, IsRun, Step}, Laws.{AreTyped, WaitsForOne}, FirstLaws.KeepsFirstLaws, Past.AtEachStep, FirstErasing.ErasesFully, FirstSchema.{AllKeepFull, ArePlain, AsksQuick, IsFirstRun, IsFirstStep, IsForgotten, KeepsNoKind, NoneAsksQuick, StepKeepsFull, StepKeepsNoKind, first_content, plain}, Later.KeepsLaws, Origin.{BeginsWith, Origin, first_steps}};

use crate::past::{
    deploying_is_commanded, entries_by_table, erasing_is_released, local_boots, machines_stay,
    numbers_once, orders_and_answers, own_boots, refusals_leave_the_hall, reports_count_once,
    request_keys, scripts_are_asked, texts_are_scripts, versions_rise_by_changes,
};
use crate::steps::steps_keep_halls_sound;
use boot_desk::new_halls_are_sound;

/// Where each machine of a hall keeps the kind `full` in Disk erasing and Failed disk erasing, and no kind elsewhere, the hall that
/// forgets the kinds is carried over to this hall again, and to no other.
pub fn forgotten_is_carried()
    ensures again { (x h : Hall) → AllKeepFull x → IsForgotten x h → IsMigrated h x }
    ensures only { (x h y : Hall) → AllKeepFull x → IsForgotten x h → IsMigrated h y → y ≡ x }
{}

/// In a run from a new hall of the second schema of which no step asks for quick erasing, each machine keeps the kind `full` in
/// Disk erasing and Failed disk erasing, and no kind elsewhere: in the last hall, and before and after each step.
pub fn full_alone()
    ensures end { (admin digest : List ℕ) (end : Hall) (steps : List Step)
        → NoneAsksQuick steps → IsRun (new_hall second admin digest) steps end → AllKeepFull end }
    ensures each { (admin digest : List ℕ) (end : Hall) (steps : List Step)
        → NoneAsksQuick steps → IsRun (new_hall second admin digest) steps end → AllByRecursion StepKeepsFull steps }
{
    new_halls_are_sound();
    steps_keep_halls_sound();
}

/// Every hall in a run from a new hall of the first schema is of the first schema, and no machine keeps a kind of erasing: the last
/// hall, and those before and after each step.
pub fn first_halls_keep_no_kind()
    ensures end { (admin digest : List ℕ) (h : Hall) (steps : List Step)
        → IsFirstRun (new_hall first admin digest) steps h → KeepsNoKind h }
    ensures each { (admin digest : List ℕ) (h : Hall) (steps : List Step)
        → IsFirstRun (new_hall first admin digest) steps h → AllByRecursion StepKeepsNoKind steps }
{}

/// The last hall of each run from a new hall of the first schema can be carried over. The run is then, with its kinds of erasing, one of the
/// second schema from a new hall, and goes on as one: so every law of runs from a new hall of the second schema holds of it and of
/// what comes after, and the hall carried over is sound. What the steps of the second schema bring is of its type if what came was so.
pub fn first_runs_go_on()
    ensures carried { (admin digest : List ℕ) (h : Hall) (steps : List Step)
        → IsFirstRun (new_hall first admin digest) steps h → (next : Hall) × IsMigrated h next }
    ensures next { (admin digest : List ℕ) (h next : Hall) (steps : List Step)
        → IsFirstRun (new_hall first admin digest) steps h → IsMigrated h next
        → (whole : List Step) × IsRun (new_hall second admin digest) whole next × ArePlain whole steps }
    ensures later { (admin digest : List ℕ) (h next end : Hall) (steps more : List Step)
        → IsFirstRun (new_hall first admin digest) steps h → IsMigrated h next → IsRun next more end
        → (whole : List Step) × IsRun (new_hall second admin digest) (whole ++ more) end × ArePlain whole steps }
    ensures sound { (admin digest : List ℕ) (h next : Hall) (steps : List Step)
        → IsFirstRun (new_hall first admin digest) steps h → IsMigrated h next → IsSound next × (next.schema ≡ second) }
    ensures typed { (whole steps : List Step) → ArePlain whole steps → AreTyped steps → AreTyped whole }
{
    new_halls_are_sound();
    steps_keep_halls_sound();
}

/// Whatever comes to the last hall of a run from a new hall of the first schema, but a release for quick erasing, is answered by a step
/// of the first schema.
pub fn first_steps_are_made()
    ensures { (admin digest : List ℕ) (h : Hall) (steps : List Step) (arrival : Arrival)
        → IsFirstRun (new_hall first admin digest) steps h → (AsksQuick arrival.event → ⊥)
        → (s : Step) × (content : Content) × (s.before ≡ h) × (s.arrival ≡ arrival) × (s.answer ≡ Some content) × IsFirstStep s }
{
    new_halls_are_sound();
    steps_keep_halls_sound();
}

/// In a run from a new hall of the first schema a script whose text has a kernel erase disks is given only to a machine in Disk
/// erasing, whose last entry was made by an accepted release with full erasing, by the operator who was its owner just before; and the text
/// names no kind of erasing. What arrivals bring is of its type.
pub fn first_erasing_is_released()
    ensures { (admin digest : List ℕ) (h : Hall) (steps : List Step)
        → AreTyped steps → IsFirstRun (new_hall first admin digest) steps h → AtEachStep ErasesFully steps }
{
    new_halls_are_sound();
    steps_keep_halls_sound();
    texts_are_scripts();
    erasing_is_released();
}

/// Each step of a run from a new hall of the first schema keeps each law of the past, with what that schema answers: so a hall that was
/// carried over has no silence in its past. At most one order waits for a machine in the last hall too.
pub fn first_laws_hold()
    ensures laws { (admin digest : List ℕ) (h : Hall) (steps : List Step)
        → IsFirstRun (new_hall first admin digest) steps h → KeepsFirstLaws steps }
    ensures waits_for_one { (admin digest : List ℕ) (h : Hall) (steps : List Step)
        → IsFirstRun (new_hall first admin digest) steps h → WaitsForOne h }
{
    new_halls_are_sound();
    steps_keep_halls_sound();
    first_erasing_is_released();
    local_boots();
    numbers_once();
    scripts_are_asked();
    texts_are_scripts();
    deploying_is_commanded();
    own_boots();
    reports_count_once();
    entries_by_table();
    request_keys();
    orders_and_answers();
    machines_stay();
    versions_rise_by_changes();
    refusals_leave_the_hall();
}

/// Whatever comes to a hall of the second schema, new or carried over from the first, keeps each law of the past, where its past has the
/// steps of the first schema as they were, and then those of the second; and so did those of the first, with what that schema answers.
/// What arrivals bring is of its type.
pub fn laws_hold_from_origins()
    ensures { (origin : Origin) (begin end : Hall) (steps : List Step)
        → BeginsWith origin begin → AreTyped steps → IsRun begin steps end → KeepsLaws (first_steps origin) steps end }
{
    new_halls_are_sound();
    steps_keep_halls_sound();
    local_boots();
    numbers_once();
    scripts_are_asked();
    texts_are_scripts();
    erasing_is_released();
    deploying_is_commanded();
    own_boots();
    reports_count_once();
    entries_by_table();
    request_keys();
    orders_and_answers();
    machines_stay();
    versions_rise_by_changes();
    first_laws_hold();
    refusals_leave_the_hall();
}

/// What the first schema answers is what it answers of machines that keep no kind of erasing: a script of work is that for such a machine, if
/// no argument of the image begins `hall.`, and lists show no kind.
#[tactic(auto, using(crate::proofs::Plain::plain_work, crate::proofs::Plain::plain_list, crate::proofs::Plain::plain_machine))]
pub fn first_answers_name_no_kind()
    ensures scripts { (host : List ℕ) (purpose : Purpose) (kind : Option Erase) (boot : Boot) (image : BootImage)
        → has_hall_word image.args ≡ false → plain (work_script host purpose kind boot image) ≡ work_script host purpose None boot image }
    ensures lists { (machines : List ListedMachine) → reply_of first (first_content (machine_list machines)) ≡ reply_of first (machine_list machines) }
    ensures machine { (machine : ListedMachine) → reply_of first (first_content (one_machine machine)) ≡ reply_of first (one_machine machine) }
{}

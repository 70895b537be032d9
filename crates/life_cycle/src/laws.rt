//! Laws of the life cycle.
ghost use Rattle.std.specs.{Prelude.{◌≡◌, ◌≢◌, ◌≤◌, ◌⊎◌, ◌↔◌, ℕ, length, All, Bool, true, Some, None, IsSome, IsTrue, is_some}, List.filter};
ghost use Rattle.hall_types.specs.declared.{status.Status.{Status, TheVariants.{Deployed, Deploying, DiskErasing, ExitingRescue, FailedDiskErasing}}, machine.Machine.Machine, operator.Operator.Operator, number.Numbers.Numbers};
ghost use Rattle.hall_types.specs.declared.kinds.Progress.TheVariants as progress;
ghost use Rattle.hall_types.specs.declared.kinds.Outcome.TheVariants as outcome;
ghost use Rattle.life_cycle.specs.{Table.{is_among, leads, step_of, transitions, who_gives}, Permission.{is_owner, permission_for, who_acts}, Entering.{entered, is_origin, is_rescue, limit_of}, Laws.{IsRemembered, limited, order_with, working}, declared.{signal.Signal.{Signal, TheVariants.{Answer, By, Expired, FourthBoot, Report}}, step.Step.Step, entering.Entered.Entered}};
ghost use Rattle.life_cycle.specs.declared.action.Action.TheVariants as act;
ghost use Rattle.hall_types.specs.declared.act.Act.TheVariants as does;

/// In one status a signal has at most one row of the table.
#[tactic(auto, using(crate::proofs::LawLemmas::one_transition))]
pub fn one_transition()
    ensures { (status : Status) (tests : Bool) (signal : Signal) → length (filter (leads status tests signal) transitions) ≤ 1 }
{}

/// All rows of a signal name the same operators who may give it.
#[tactic(auto, using(crate::specs::StepLaws::one_who))]
pub fn one_who()
    ensures { All (λ t. t.who ≡ who_gives t.signal) transitions }
{}

/// Each step leads to another status.
#[tactic(auto, using(crate::specs::StepLaws::steps_change_status))]
pub fn steps_change_status()
    ensures { (m : Machine) (signal : Signal) (step : Step) → IsRemembered m.back
        → step_of m signal ≡ Some step → step.status ≢ m.status }
{}

/// Only `deploy` leads to Deploying, and only the machine's owner may deploy it.
#[tactic(auto, using(crate::specs::StepLaws::ways_to_deploying), unfolding(crate::specs::Table::who_gives))]
pub fn ways_to_deploying()
    ensures signal { (m : Machine) (signal : Signal) (step : Step) → IsRemembered m.back
        → step_of m signal ≡ Some step → step.status ≡ Deploying → signal ≡ By act.Deploy }
    ensures owner { (o : Operator) (m : Machine) (member : Bool)
        → permission_for (who_acts act.Deploy) o m member ≡ None → is_owner o m ≡ true }
{}

/// A machine becomes Deployed only by the report that its deployment is done, or by the end of a rescue
/// that began from Deployed.
#[tactic(auto, using(crate::specs::StepLaws::ways_to_deployed))]
pub fn ways_to_deployed()
    ensures { (m : Machine) (signal : Signal) (step : Step) → step_of m signal ≡ Some step → step.status ≡ Deployed
        → ((signal ≡ Report progress.Done) × (m.status ≡ Deploying))
        ⊎ ((signal ≡ Answer outcome.Done) × (m.status ≡ ExitingRescue) × (m.back ≡ Some Deployed)) }
{}

/// A Deployed machine leaves this status only by release without erasing, by release with erasing, and by
/// rescue.
#[tactic(auto, using(crate::specs::StepLaws::ways_from_deployed))]
pub fn ways_from_deployed()
    ensures { (m : Machine) (signal : Signal) (step : Step) → step_of m signal ≡ Some step → m.status ≡ Deployed
        → (signal ≡ By act.Release) ⊎ ((signal ≡ By act.ReleaseErasing) ⊎ (signal ≡ By (act.Act does.Rescue))) }
{}

/// Only release with erasing leads to Disk erasing, and only the machine's owner may release it so.
#[tactic(auto, using(crate::specs::StepLaws::ways_to_disk_erasing), unfolding(crate::specs::Table::who_gives))]
pub fn ways_to_disk_erasing()
    ensures signal { (m : Machine) (signal : Signal) (step : Step) → IsRemembered m.back
        → step_of m signal ≡ Some step → step.status ≡ DiskErasing → signal ≡ By act.ReleaseErasing }
    ensures owner { (o : Operator) (m : Machine) (member : Bool)
        → permission_for (who_acts act.ReleaseErasing) o m member ≡ None → is_owner o m ≡ true }
{}

/// Failed disk erasing is entered only from Disk erasing.
#[tactic(auto, using(crate::specs::StepLaws::ways_to_failed_disk_erasing))]
pub fn ways_to_failed_disk_erasing()
    ensures { (m : Machine) (signal : Signal) (step : Step) → IsRemembered m.back
        → step_of m signal ≡ Some step → step.status ≡ FailedDiskErasing → m.status ≡ DiskErasing }
{}

/// Seven statuses have a limit. A machine has a deadline exactly in these, and exactly these are left when
/// the deadline comes.
#[tactic(auto, using(crate::specs::StepLaws::limits_of, crate::specs::EnteringLaws::limits_enter, crate::specs::StepLaws::limits_expire))]
pub fn limits_expire()
    ensures limited { (status : Status) → is_some (limit_of status) ≡ is_among limited status }
    ensures deadline { (m : Machine) (step : Step) (moment : ℕ) (numbers : Numbers) (e : Entered)
        → entered m step moment numbers ≡ Some e → is_some e.machine.deadline ≡ is_some (limit_of e.machine.status) }
    ensures expiry { (m : Machine) → is_some (step_of m Expired) ≡ is_some (limit_of m.status) }
{}

/// A fourth boot leads to another status exactly from Commissioning, Testing, Deploying, Disk erasing and
/// Entering rescue.
#[tactic(auto, using(crate::specs::StepLaws::fourth_boots))]
pub fn fourth_boots()
    ensures { (m : Machine) → is_some (step_of m FourthBoot) ≡ is_among working m.status }
{}

/// Which order is queued follows from the status that a step leads to, except that each abort switches the
/// machine off.
#[tactic(auto, using(crate::specs::StepLaws::orders_by_target))]
pub fn orders_by_target()
    ensures { (m : Machine) (signal : Signal) (step : Step) → IsRemembered m.back
        → step_of m signal ≡ Some step → step.order ≡ order_with signal step.status }
{}

/// What is remembered is Deployed or Broken, whatever steps are taken.
#[tactic(auto, using(crate::specs::EnteringLaws::remembered_statuses))]
pub fn remembered_statuses()
    ensures { (m : Machine) (step : Step) (moment : ℕ) (numbers : Numbers) (e : Entered) → IsRemembered m.back
        → entered m step moment numbers ≡ Some e → IsRemembered e.machine.back }
{}

/// A status is remembered exactly in the five statuses of a rescue: each step keeps this.
#[tactic(auto, using(crate::specs::EnteringLaws::remembered_in_rescue))]
pub fn remembered_in_rescue()
    ensures { (m : Machine) (signal : Signal) (step : Step) (moment : ℕ) (numbers : Numbers) (e : Entered)
        → IsRemembered m.back → is_some m.back ≡ is_rescue m.status
        → step_of m signal ≡ Some step → entered m step moment numbers ≡ Some e
        → is_some e.machine.back ≡ is_rescue e.machine.status }
{}

/// The end of a rescue leads back to the very status that the rescue began from: a rescue that begins from
/// Deployed or Broken remembers that status, each step within the rescue keeps it, and the end leads to it.
#[tactic(auto, using(crate::specs::StepLaws::rescue_ends))]
pub fn rescue_returns()
    ensures begins { (m : Machine) (step : Step) (moment : ℕ) (numbers : Numbers) (e : Entered) → IsRemembered m.back
        → is_origin m.status ≡ true → step_of m (By (act.Act does.Rescue)) ≡ Some step
        → entered m step moment numbers ≡ Some e → e.machine.back ≡ Some m.status }
    ensures keeps { (m : Machine) (step : Step) (moment : ℕ) (numbers : Numbers) (e : Entered)
        → is_rescue m.status ≡ true → is_rescue step.status ≡ true
        → entered m step moment numbers ≡ Some e → e.machine.back ≡ m.back }
    ensures ends { (m : Machine) (step : Step) → m.status ≡ ExitingRescue
        → step_of m (Answer outcome.Done) ≡ Some step → m.back ≡ Some step.status }
{}

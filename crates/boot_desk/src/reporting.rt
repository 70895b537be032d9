//! What becomes of a report of a boot.
ghost use Rattle.std.specs.{Prelude.◌≡◌, Option.option_copied};
ghost use Rattle.boot_desk.specs.{Decided.Decides, Report.{counted, is_current, is_wrong_stage, judged, reported, standing_of}, declared.reporting.Standing.Standing};

use crate::fault::{DeskFault, Verdict};
use crate::following::{first_row, follow};
use crate::views::ReportView;
use hall_types::{
    Boot, Change, Moment, Number, Progress, Purpose, Refusal, RowWrite, Stage, Status, Token,
};
use life_cycle::{Signal, next};
use std::alloc::Global;

// What a report is to a boot of a stage.
#[derive(Clone, Copy)]
pub(crate) enum Standing {
    // The boot has reported it before.
    Repeated,
    // The boot has reported the other verdict.
    Contradicted,
    News,
}

fn standing_of(held: Stage, progress: Progress) -> Standing
    ensures { result ≡ standing_of held progress }
{
    match (held, progress) {
        (Stage::Offered, _) => Standing::News,
        (_, Progress::Started) => Standing::Repeated,
        (Stage::Started, _) => Standing::News,
        (Stage::Done, Progress::Failed) | (Stage::Failed, Progress::Done) => Standing::Contradicted,
        (Stage::Done | Stage::Failed, _) => Standing::Repeated,
    }
}

fn is_current(current: Option<Number>, number: Number) -> bool
    ensures { result ≡ is_current current number }
{
    match current {
        Some(current) => current.get() == number.get(),
        None => false,
    }
}

// A rescue is never reported done, and it can't fail once the machine is in Rescue mode.
fn is_wrong_stage(progress: Progress, purpose: Purpose, status: Status) -> bool
    ensures { result ≡ is_wrong_stage progress purpose status }
{
    match progress {
        Progress::Started => false,
        Progress::Done => matches!(purpose, Purpose::Rescue),
        Progress::Failed => matches!(status, Status::Rescue),
    }
}

fn counted(
    alloc: Global,
    view: &ReportView,
    progress: Progress,
    moment: Moment,
) -> Result<(Change, Verdict), DeskFault>
    ensures { Decides result (counted view.now progress moment) }
{
    let boot = Boot {
        stage: progress.stage(),
        ..view.asked
    };
    let rows = first_row(alloc, RowWrite::PutBoot(boot))?;
    let step = next(&view.at.machine, Signal::Report(progress));
    let change = follow(rows, &view.at, moment, step)?;
    Ok((change, Verdict::Counted))
}

/// What becomes of a report: the rows to write, and whether it counts or repeats. `view` has the boot with the
/// reported number and its machine, if there is one, in rows of one sound hall.
///
/// It is refused for the first of NoBoot (the number or the token is another), Spent (the other verdict was
/// reported), Stale (the boot is not the machine's current one), WrongStage and Exhausted.
#[tactic(auto, unfolding(crate::specs::Report::reported))]
pub fn report(
    alloc: Global,
    view: Option<&ReportView>,
    token: Token,
    progress: Progress,
    moment: Moment,
) -> Result<(Change, Verdict), DeskFault>
    ensures { Decides result (reported (option_copied view.entry) token progress moment) }
{
    let Some(view) = view else {
        return Err(DeskFault::Refused(Refusal::NoBoot));
    };
    if view.asked.token != token {
        return Err(DeskFault::Refused(Refusal::NoBoot));
    }
    match standing_of(view.asked.stage, progress) {
        Standing::Repeated => return Ok((Change::from(Vec::new(alloc)), Verdict::Repeat)),
        Standing::Contradicted => return Err(DeskFault::Refused(Refusal::Spent)),
        Standing::News => {}
    }
    if !is_current(view.at.machine.boot, view.asked.number) {
        return Err(DeskFault::Refused(Refusal::Stale));
    }
    if is_wrong_stage(progress, view.asked.purpose, view.at.machine.status) {
        return Err(DeskFault::Refused(Refusal::WrongStage));
    }
    counted(alloc, view, progress, moment)
}

//! What is planned for each event.
ghost use Rattle.std.specs.Prelude.{◌≡◌, [], false, List, IfOk, option_copied, option_map};
ghost use Rattle.boot_desk.specs.OrderAnswer.{answered};
ghost use Rattle.boot_desk.specs.FrameEvent as event;
ghost use Rattle.boot_desk.specs.Views as views;
ghost use Rattle.hall_laws.specs.Decision as made;
ghost use Rattle.hall_desk.specs.{Prelude.{Site, Hall, second, next_expired, RowWrite, nothing, reply_of, Decides, swept, Fetched, Judged, reported, framed, given_if, judged, refuses, verdict_content, Looks}, Account.{about, is_unlisted}, Plan.{IsFramePlan, Plans, rows_for}};

use crate::account::Found;
use crate::arrival::Stamp;
use boot_desk::{
    BootView, Decision, DeskFault, ReportView, Verdict, enlist, fetch, frame, order_answer, report,
    sweep,
};
use desk_command::{expired_view, frame_view, order_view, report_view, view_at};
use hall_events::Reply;
use hall_store::{HallStore, Unavailable};
use hall_types::{
    Change, MacAddress, Moment, Number, Numbers, Outcome, Port, Progress, Refusal, Token,
};
use ipxe_script::Script;
use pxe_vendor::{Client, Place, boot_file};
use std::alloc::{AllocError, Global};

/// The rows to write for an event, and its answer.
pub(crate) type Planned = Result<(Change, Reply), Unavailable>;

// An answer without rows to write.
fn no_rows(alloc: Global) -> Change
    ensures { result ≡ [] }
{
    Change::from(Vec::new(alloc))
}

/// The refusal for a cause.
pub(crate) fn refused(alloc: Global, cause: Refusal) -> Planned
    ensures { IfOk result (λ planned. Plans (refuses cause) planned) }
{
    let reply = Reply::refused(alloc, cause)?;
    Ok((no_rows(alloc), reply))
}

// ---- clients

// The rows that a decision on a client's frame writes.
fn rows_for(
    alloc: Global,
    decision: Decision,
    client: &Client,
    numbers: Numbers,
) -> Result<Change, Unavailable>
    ensures { IfOk result (λ change. change ≡ rows_for decision client.now numbers) }
{
    match decision {
        Decision::Enlist => Ok(enlist(alloc, client, numbers)?),
        Decision::Loader | Decision::ScriptUrl | Decision::Silent(_) => Ok(no_rows(alloc)),
    }
}

/// How a client's frame at a port is answered, with the rows that enlist the client.
#[tactic(auto, using(crate::proofs::FrameLemmas::enough_plans, crate::proofs::FrameLemmas::no_rows_for))]
pub(crate) fn plan_client<S: HallStore>(
    alloc: Global,
    store: &mut S,
    port: Port,
    client: &Client,
) -> Result<(Change, Decision), Unavailable>
    ensures planned { Looks S.HallStore store.old store.new result (λ h planned. IsFramePlan h port client.now planned) }
    ensures unlisted { IfOk result (λ planned. is_unlisted false planned.1 ≡ false → planned.0 ≡ []) }
{
    let view = frame_view(store, client)?;
    let decision = frame(&view, port, client);
    let change = rows_for(alloc, decision, client, view.numbers)?;
    Ok((change, decision))
}

/// The answer with a client's boot file, or none.
#[tactic(auto, unfolding(hall_events::specs::Reply::reply_of))]
pub(crate) fn client_reply(
    alloc: Global,
    decision: Decision,
    client: &Client,
    place: &Place,
) -> Result<Reply, Unavailable>
    ensures { (h : Hall) → IfOk result (λ reply. reply ≡ reply_of second (framed decision place.now h client.now).content) }
{
    if let Decision::Silent(_) = decision {
        return Ok(Reply::Nothing);
    }
    let file = boot_file(alloc, client, place)?;
    Ok(Reply::boot_file(file))
}

// ---- machines

// The answer with the script that was given.
fn script_plan(alloc: Global, given: Result<(Change, Script), DeskFault>) -> Planned
    ensures { (fetched : Fetched) → Decides given fetched → IfOk result (λ planned. Plans (made.given fetched) planned) }
{
    match given {
        Ok((change, script)) => Ok((change, Reply::script(alloc, &script)?)),
        Err(DeskFault::Refused(cause)) => refused(alloc, cause),
        Err(DeskFault::Memory) => Err(Unavailable),
    }
}

/// The machine that an address is recorded with, which is noted.
pub(crate) fn noted_boot_view<S: HallStore>(
    alloc: Global,
    store: &mut S,
    mac: MacAddress,
    found: &mut Found,
) -> Result<Option<BootView>, Unavailable>
    ensures { Looks S.HallStore store.old store.new result
        (λ h answer. (answer ≡ views.view_at h mac) × (found.new ≡ about (option_map (λ its. its.machine) (views.view_at h mac)) found.old)) }
{
    let view = view_at(alloc, store, mac)?;
    found.note_boot_view(&view);
    Ok(view)
}

/// What is planned for a request for a script.
pub(crate) fn plan_script(
    alloc: Global,
    view: Option<BootView>,
    place: &Place,
    stamp: Stamp,
) -> Planned
    ensures { IfOk result (λ planned. Plans (given_if place.now.host view stamp.moment stamp.fresh) planned) }
{
    let plan = match &view {
        Some(view) => script_plan(alloc, fetch(alloc, view, place, stamp.moment, stamp.fresh)),
        None => refused(alloc, Refusal::NoMachine),
    };
    drop(view);
    plan
}

// The answer that says whether it counted.
fn verdict_reply(alloc: Global, verdict: Verdict) -> Result<Reply, Unavailable>
    ensures { IfOk result (λ reply. reply ≡ reply_of second (verdict_content verdict)) }
{
    match verdict {
        Verdict::Counted => Ok(Reply::counted(alloc)?),
        Verdict::Repeat => Ok(Reply::repeated(alloc)?),
    }
}

// The answer with the verdict.
fn verdict_plan(alloc: Global, judgement: Result<(Change, Verdict), DeskFault>) -> Planned
    ensures { (its : Judged) → Decides judgement its → IfOk result (λ planned. Plans (judged its) planned) }
{
    match judgement {
        Ok((change, verdict)) => Ok((change, verdict_reply(alloc, verdict)?)),
        Err(DeskFault::Refused(cause)) => refused(alloc, cause),
        Err(DeskFault::Memory) => Err(Unavailable),
    }
}

/// The boot that a report is on, whose machine is noted.
pub(crate) fn noted_report_view<S: HallStore>(
    alloc: Global,
    store: &mut S,
    boot: Number,
    found: &mut Found,
) -> Result<Option<ReportView>, Unavailable>
    ensures { Looks S.HallStore store.old store.new result
        (λ h answer. (answer ≡ views.report_view h boot) × (found.new ≡ about (option_map (λ its. its.at.machine) (views.report_view h boot)) found.old)) }
{
    let view = report_view(alloc, store, boot)?;
    found.note_report_view(&view);
    Ok(view)
}

/// What is planned for a report.
pub(crate) fn plan_report(
    alloc: Global,
    view: Option<ReportView>,
    token: Token,
    progress: Progress,
    moment: Moment,
) -> Planned
    ensures { IfOk result (λ planned. Plans (judged (reported view token progress moment)) planned) }
{
    let plan = verdict_plan(alloc, report(alloc, view.as_ref(), token, progress, moment));
    drop(view);
    plan
}

/// The answer to an order, and when it came.
#[derive(Clone, Copy)]
pub(crate) struct OrderAnswer {
    pub(crate) order: Number,
    pub(crate) outcome: Outcome,
    pub(crate) moment: Moment,
}

/// What is planned for the answer to an order, of a sender that may answer.
pub(crate) fn judge_answer<S: HallStore>(
    alloc: Global,
    store: &mut S,
    answer: OrderAnswer,
    found: &mut Found,
) -> Planned
    ensures { Looks S.HallStore store.old store.new result
        (λ h planned. Plans (judged (answered (views.order_view h answer.order) answer.outcome answer.moment)) planned
        × (found.new ≡ about (option_map (λ its. its.at.machine) (views.order_view h answer.order)) found.old)) }
{
    let view = order_view(alloc, store, answer.order)?;
    found.note_order_view(&view);
    let judged = order_answer(alloc, view.as_ref(), answer.outcome, answer.moment);
    let plan = verdict_plan(alloc, judged);
    drop(view);
    plan
}

/// The machine whose deadline comes first and is due, which is noted.
pub(crate) fn noted_expired_view<S: HallStore>(
    alloc: Global,
    store: &mut S,
    moment: Moment,
    found: &mut Found,
) -> Result<Option<BootView>, Unavailable>
    ensures { Looks S.HallStore store.old store.new result
        (λ h answer. (answer ≡ views.machine_view h (next_expired h moment))
        × (found.new ≡ about (option_map (λ its. its.machine) (views.machine_view h (next_expired h moment))) found.old)) }
{
    let view = expired_view(alloc, store, moment)?;
    found.note_boot_view(&view);
    Ok(view)
}

/// What is planned for a quiet moment: no answer, with the rows of what expired.
#[tactic(auto, unfolding(hall_events::specs::Reply::reply_of))]
pub(crate) fn plan_quiet(alloc: Global, view: Option<BootView>, moment: Moment) -> Planned
    ensures { IfOk result (λ planned. Plans (record { rows = swept view moment; content = nothing }) planned) }
{
    let swept = sweep(alloc, view.as_ref(), moment);
    drop(view);
    Ok((swept?, Reply::Nothing))
}

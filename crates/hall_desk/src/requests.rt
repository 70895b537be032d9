//! What is planned for what operators and the power program ask.
ghost use Rattle.std.specs.Prelude.{◌≡◌, [], map, IfOk, Ok, None, option_map};
ghost use Rattle.hall_types.specs.Rows.{listed};
ghost use Rattle.boot_desk.specs.OrderAnswer.{answered};
ghost use Rattle.boot_desk.specs.Views as views;
ghost use Rattle.desk_command.specs.Command as commands;
ghost use Rattle.hall_desk.specs.{Prelude.{pair, waiting, at, Decides, replied, Effect, Looks, commanded, if_role, judged, listed_if, listed_of, may_answer, may_see_machines, may_see_orders, says, machine_list, waiting_orders}, Account.{about, if_may, machine_keyed, machine_named, machine_sent, sent_by}, Plan.Plans, Sender.{if_enabled, may}};

use crate::account::Found;
use crate::listing::list_machines;
use crate::plans::{OrderAnswer, Planned, judge_answer, refused};
use boot_desk::DeskFault;
use desk_command::{command, command_view, may_send, repeated, sender};
use hall_events::{HallCommand, Reply};
use hall_store::{HallStore, Unavailable};
use hall_types::{Change, Digest, Moment, Number, Operator, Refusal, RequestKey, Role};
use std::alloc::{AllocError, Global};

// The operator of a bearer token's digest, who is noted.
fn noted_sender<S: HallStore>(
    store: &mut S,
    bearer: Option<Digest>,
    found: &mut Found,
) -> Result<Option<Operator>, Unavailable>
    ensures { Looks S.HallStore store.old store.new result
        (λ h answer. (answer ≡ commands.sender h bearer) × (found.new ≡ sent_by (commands.sender h bearer) found.old)) }
{
    let operator = sender(store, bearer)?;
    found.note_operator(&operator);
    Ok(operator)
}

// The operator, if there is one who is enabled.
fn if_enabled(operator: Option<Operator>) -> Option<Operator>
    ensures { result ≡ if_enabled operator }
{
    match operator {
        Some(operator) if operator.enabled => Some(operator),
        _ => None,
    }
}

/// The enabled operator of a bearer token's digest.
pub(crate) fn enabled_sender<S: HallStore>(
    store: &mut S,
    bearer: Option<Digest>,
) -> Result<Option<Operator>, Unavailable>
    ensures { Looks S.HallStore store.old store.new result (λ h answer. answer ≡ if_enabled (commands.sender h bearer)) }
{
    let operator = sender(store, bearer)?;
    Ok(if_enabled(operator))
}

// ---- what only some roles may ask for

/// What an operator may ask for beside commands.
#[derive(Clone, Copy)]
pub(crate) enum Right {
    SeeOrders,
    AnswerOrders,
    SeeMachines,
}

impl Right {
    // The power program and admins see the orders; the power program alone answers them; users and admins see machines.
    fn is_of(self, role: Role) -> bool
        ensures { result ≡ may self role }
    {
        match self {
            Right::SeeOrders => matches!(role, Role::Admin | Role::Power),
            Right::AnswerOrders => matches!(role, Role::Power),
            Right::SeeMachines => matches!(role, Role::Admin | Role::User),
        }
    }
}

// ---- commands

/// A command as it was sent, and when it came.
#[derive(Clone, Copy)]
pub(crate) struct Sent<'a> {
    pub(crate) key: RequestKey,
    pub(crate) wish: &'a HallCommand,
    pub(crate) moment: Moment,
}

// The answer to a command.
fn command_plan(alloc: Global, decided: Result<(Change, Reply), DeskFault>) -> Planned
    ensures { (effect : Effect) → Decides decided (replied effect) → IfOk result (λ planned. Plans (commanded effect) planned) }
{
    match decided {
        Ok(planned) => Ok(planned),
        Err(DeskFault::Refused(cause)) => refused(alloc, cause),
        Err(DeskFault::Memory) => Err(Unavailable),
    }
}

// A command whose key has no receipt.
fn plan_new_command<S: HallStore>(
    alloc: Global,
    store: &mut S,
    by: &Operator,
    sent: Sent<'_>,
    found: &mut Found,
) -> Planned
    ensures { Looks S.HallStore store.old store.new result
        (λ h planned. Plans (commanded (commands.keyed h by.now None sent.entry.key sent.entry.wish.now sent.entry.moment)) planned
        × (found.new ≡ about (machine_named h by.now sent.entry.wish.now) found.old)) }
{
    let Sent { key, wish, moment } = sent;
    if !may_send(by.role, wish) {
        return refused(alloc, Refusal::RoleNeeded);
    }
    let view = command_view(alloc, store, by, wish)?;
    found.note_command_view(&view);
    let plan = command_plan(alloc, command(alloc, &view, by, key, wish, moment));
    drop(view);
    plan
}

// A command of an operator that is known.
fn plan_keyed<S: HallStore>(
    alloc: Global,
    store: &mut S,
    by: &Operator,
    sent: Sent<'_>,
    found: &mut Found,
) -> Planned
    ensures { Looks S.HallStore store.old store.new result
        (λ h planned. Plans (commanded (commands.keyed h by.now (at h.receipts (pair by.now.name sent.entry.key)) sent.entry.key sent.entry.wish.now sent.entry.moment)) planned
        × (found.new ≡ about (machine_keyed h by.now (at h.receipts (pair by.now.name sent.entry.key)) sent.entry.wish.now) found.old)) }
{
    let Sent { key, wish, moment } = sent;
    match store.receipt(alloc, &by.name, key)? {
        Some(receipt) => {
            let plan = command_plan(alloc, repeated(alloc, &receipt, wish));
            drop(receipt);
            plan
        }
        None => plan_new_command(alloc, store, by, Sent { key, wish, moment }, found),
    }
}

/// What is planned for a command.
#[tactic(auto, unfolding(desk_command::specs::Command::command_decision))]
pub(crate) fn plan_command<S: HallStore>(
    alloc: Global,
    store: &mut S,
    bearer: Option<Digest>,
    sent: Sent<'_>,
    found: &mut Found,
) -> Planned
    ensures { Looks S.HallStore store.old store.new result
        (λ h planned. Plans (commanded (commands.command_decision h bearer sent.entry.key sent.entry.wish.now sent.entry.moment)) planned
        × (found.new ≡ about (machine_sent h (commands.sender h bearer) sent.entry.key sent.entry.wish.now) (sent_by (commands.sender h bearer) found.old))) }
{
    let Sent { key, wish, moment } = sent;
    match noted_sender(store, bearer, found)? {
        Some(by) if by.enabled => {
            plan_keyed(alloc, store, &by, Sent { key, wish, moment }, found)
        }
        Some(_) | None => refused(alloc, Refusal::UnknownToken),
    }
}

// ---- orders and lists

// An answer that writes nothing.
pub(crate) fn said(alloc: Global, reply: Result<Reply, AllocError>) -> Planned
    ensures { IfOk result (λ planned. (planned.0 ≡ []) × (reply ≡ Ok planned.1)) }
{
    Ok((Change::from(Vec::new(alloc)), reply?))
}

// The orders that wait.
fn list_orders<S: HallStore>(alloc: Global, store: &mut S) -> Planned
    ensures { Looks S.HallStore store.old store.new result
        (λ h planned. Plans (says (waiting_orders (waiting h))) planned) }
{
    let orders = store.waiting_orders(alloc)?;
    said(alloc, Reply::orders(alloc, &orders))
}

/// What is planned for a request for the orders.
pub(crate) fn plan_orders<S: HallStore>(
    alloc: Global,
    store: &mut S,
    bearer: Option<Digest>,
    found: &mut Found,
) -> Planned
    ensures { Looks S.HallStore store.old store.new result
        (λ h planned. Plans (if_role may_see_orders (commands.sender h bearer) (says (waiting_orders (waiting h)))) planned
        × (found.new ≡ sent_by (commands.sender h bearer) found.old)) }
{
    match noted_sender(store, bearer, found)? {
        Some(by) if by.enabled => {
            if Right::SeeOrders.is_of(by.role) {
                list_orders(alloc, store)
            } else {
                refused(alloc, Refusal::RoleNeeded)
            }
        }
        Some(_) | None => refused(alloc, Refusal::UnknownToken),
    }
}

/// What is planned for the answer to an order.
pub(crate) fn plan_order_answer<S: HallStore>(
    alloc: Global,
    store: &mut S,
    bearer: Option<Digest>,
    answer: OrderAnswer,
    found: &mut Found,
) -> Planned
    ensures { Looks S.HallStore store.old store.new result
        (λ h planned. Plans (if_role may_answer (commands.sender h bearer) (judged (answered (views.order_view h answer.order) answer.outcome answer.moment))) planned
        × (found.new ≡ about (if_may may_answer (commands.sender h bearer) (option_map (λ its. its.at.machine) (views.order_view h answer.order))) (sent_by (commands.sender h bearer) found.old))) }
{
    match noted_sender(store, bearer, found)? {
        Some(by) if by.enabled => {
            if Right::AnswerOrders.is_of(by.role) {
                judge_answer(alloc, store, answer, found)
            } else {
                refused(alloc, Refusal::RoleNeeded)
            }
        }
        Some(_) | None => refused(alloc, Refusal::UnknownToken),
    }
}

// One machine with its interfaces, by address.
fn list_one<S: HallStore>(alloc: Global, store: &mut S, id: Number) -> Planned
    ensures { Looks S.HallStore store.old store.new result
        (λ h planned. Plans (listed_if h (at h.machines id)) planned) }
{
    let Some(machine) = store.machine(id)? else {
        return refused(alloc, Refusal::NoMachine);
    };
    let interfaces = store.interfaces_of(alloc, machine.id)?;
    said(alloc, Reply::one_machine(alloc, &machine, &interfaces))
}
/// What is planned for a request for one machine.
pub(crate) fn plan_one_machine<S: HallStore>(
    alloc: Global,
    store: &mut S,
    bearer: Option<Digest>,
    id: Number,
    found: &mut Found,
) -> Planned
    ensures { Looks S.HallStore store.old store.new result
        (λ h planned. Plans (if_role may_see_machines (commands.sender h bearer) (listed_if h (at h.machines id))) planned
        × (found.new ≡ sent_by (commands.sender h bearer) found.old)) }
{
    match noted_sender(store, bearer, found)? {
        Some(by) if by.enabled => {
            if Right::SeeMachines.is_of(by.role) {
                list_one(alloc, store, id)
            } else {
                refused(alloc, Refusal::RoleNeeded)
            }
        }
        Some(_) | None => refused(alloc, Refusal::UnknownToken),
    }
}

/// What is planned for a request for all machines.
pub(crate) fn plan_machines<S: HallStore>(
    alloc: Global,
    store: &mut S,
    bearer: Option<Digest>,
    found: &mut Found,
) -> Planned
    ensures { Looks S.HallStore store.old store.new result
        (λ h planned. Plans (if_role may_see_machines (commands.sender h bearer) (says (machine_list (map (listed_of h) (listed h.machines))))) planned
        × (found.new ≡ sent_by (commands.sender h bearer) found.old)) }
{
    match noted_sender(store, bearer, found)? {
        Some(by) if by.enabled => {
            if Right::SeeMachines.is_of(by.role) {
                list_machines(alloc, store)
            } else {
                refused(alloc, Refusal::RoleNeeded)
            }
        }
        Some(_) | None => refused(alloc, Refusal::UnknownToken),
    }
}

//! Why commands are refused.
ghost use Rattle.std.specs.Prelude.{◌≡◌, Some, find, is_some};
ghost use Rattle.desk_command.specs.Causes.{action_of, causes, causes_at, first_of, forbidden, is_arch, is_barred, is_idle, is_number, is_stale, missing, no_live, no_live_if, no_step, own, own_of_act, when};

use crate::action::{action_of, release_action};
use crate::view::CommandView;
use hall_events::{HallCommand, MachineCommand};
use hall_types::{
    Act, Arch, Erase, MAX_INTERFACES, MAX_MACHINES, MAX_NUMBER, Machine, Number, Operator, Refusal,
    Status, Version, arch_number,
};
use life_cycle::{Action, Signal, may, next};

fn when(holds: bool, refusal: Refusal) -> Option<Refusal>
    ensures { result ≡ when holds refusal }
{
    if holds { Some(refusal) } else { None }
}

// The first of these that is a cause.
fn found(causes: &[Option<Refusal>]) -> Option<Option<Refusal>>
    ensures { result ≡ find (λ cause. is_some cause) causes.now }
{
    causes.iter().copied().find(|cause| cause.is_some())
}

// The first cause that there is.
#[tactic(auto, using(crate::specs::AllowedLaws::first_found))]
fn first(causes: &[Option<Refusal>]) -> Option<Refusal>
    ensures { result ≡ first_of causes.now }
{
    found(causes).flatten()
}

fn is_number(its: Option<Number>, id: Number) -> bool
    ensures { result ≡ is_number its id }
{
    match its {
        Some(its) => its.get() == id.get(),
        None => false,
    }
}

// The row that a command on a machine names, beside the machine, isn't there.
fn missing(view: &CommandView, machine: &Machine, command: &MachineCommand) -> Option<Refusal>
    ensures { result ≡ missing view.now machine.now command.now }
{
    match command {
        MachineCommand::RemoveInterface { .. } => when(
            !is_number(view.by_mac, machine.id),
            Refusal::NoInterface,
        ),
        MachineCommand::SetPool { .. } => when(!view.has_pool, Refusal::NoPool),
        MachineCommand::Deploy { .. } => when(view.image.is_none(), Refusal::NoImage),
        _ => None,
    }
}

// The operator may not act so on the machine.
fn forbidden(
    by: &Operator,
    machine: &Machine,
    is_member: bool,
    command: &MachineCommand,
) -> Option<Refusal>
    ensures { result ≡ forbidden by.now machine.now is_member (action_of command.now) }
{
    let action = action_of(command)?;
    may(by, machine, action, is_member).err()
}

fn is_stale(wanted: Option<Version>, version: Version) -> bool
    ensures { result ≡ is_stale wanted version }
{
    match wanted {
        Some(wanted) => wanted.get() != version.get(),
        None => false,
    }
}

fn is_barred(machine: &Machine, command: &MachineCommand) -> bool
    ensures { result ≡ is_barred machine.now command.now }
{
    match command {
        MachineCommand::Act(Act::Unlock) => false,
        _ => machine.locked,
    }
}

fn is_idle(status: Status) -> bool
    ensures { result ≡ is_idle status }
{
    matches!(
        status,
        Status::New
            | Status::Ready
            | Status::Broken
            | Status::FailedCommissioning
            | Status::FailedTesting
    )
}

fn no_step(machine: &Machine, action: Action) -> Option<Refusal>
    ensures { result ≡ no_step machine.now action }
{
    when(
        next(machine, Signal::By(action)).is_none(),
        Refusal::WrongStatus,
    )
}

fn no_live(view: &CommandView) -> Option<Refusal>
    ensures { result ≡ no_live view.now }
{
    when(!view.has_live, Refusal::NoLiveImage)
}

fn no_live_if(view: &CommandView, erase: Option<Erase>) -> Option<Refusal>
    ensures { result ≡ no_live_if view.now erase }
{
    match erase {
        Some(_) => no_live(view),
        None => None,
    }
}

fn is_arch(its: Option<Arch>, arch: Arch) -> bool
    ensures { result ≡ is_arch its arch }
{
    match its {
        Some(its) => arch_number(its) == arch_number(arch),
        None => false,
    }
}

// The first of the causes that are an act's own.
fn own_of_act(view: &CommandView, machine: &Machine, act: Act) -> Option<Refusal>
    ensures { result ≡ first_of (own_of_act view.now machine.now act) }
{
    match act {
        Act::Lock => when(
            !matches!(machine.status, Status::Deployed),
            Refusal::WrongStatus,
        ),
        Act::Unlock => when(!machine.locked, Refusal::WrongStatus),
        Act::Test | Act::Rescue => first(&[no_step(machine, Action::Act(act)), no_live(view)]),
        _ => no_step(machine, Action::Act(act)),
    }
}

// The first of the causes that are the command's own.
fn own(view: &CommandView, machine: &Machine, command: &MachineCommand) -> Option<Refusal>
    ensures { result ≡ first_of (own view.now machine.now command.now) }
{
    match *command {
        MachineCommand::AddInterface { .. } => first(&[
            when(view.by_mac.is_some(), Refusal::Taken),
            when(view.interfaces >= MAX_INTERFACES as u64, Refusal::Full),
        ]),
        MachineCommand::RemoveInterface { .. } => {
            when(view.interfaces <= 1, Refusal::LastInterface)
        }
        MachineCommand::SetPool { .. } | MachineCommand::Delete => {
            when(!is_idle(machine.status), Refusal::WrongStatus)
        }
        MachineCommand::Commission { .. } => {
            first(&[no_step(machine, Action::Commission), no_live(view)])
        }
        MachineCommand::Deploy { .. } => first(&[
            no_step(machine, Action::Deploy),
            when(!is_arch(view.image, machine.arch), Refusal::WrongArch),
        ]),
        MachineCommand::Release { erase } => first(&[
            no_step(machine, release_action(erase)),
            no_live_if(view, erase),
        ]),
        MachineCommand::Act(act) => own_of_act(view, machine, act),
    }
}

// Why a command on a machine is refused, if it is.
fn cause_at(
    view: &CommandView,
    machine: &Machine,
    by: &Operator,
    version: Option<Version>,
    command: &MachineCommand,
) -> Option<Refusal>
    ensures { result ≡ first_of (causes_at (Some machine.now) view.now by.now version command.now) }
{
    first(&[
        missing(view, machine, command),
        forbidden(by, machine, view.is_member, command),
        when(is_stale(version, machine.version), Refusal::StaleVersion),
        when(is_barred(machine, command), Refusal::Locked),
        own(view, machine, command),
        when(machine.version.get() == MAX_NUMBER, Refusal::Exhausted),
    ])
}

/// Why a command is refused, if it is: the first cause in the order of the refusals' numbers.
#[tactic(auto, unfolding(crate::specs::Causes::causes))]
pub(crate) fn cause(view: &CommandView, by: &Operator, command: &HallCommand) -> Option<Refusal>
    ensures { result ≡ first_of (causes view.now by.now command.now) }
{
    match command {
        HallCommand::AddOperator { .. } => when(
            view.operator.is_some() || view.has_digest,
            Refusal::Taken,
        ),
        HallCommand::DisableOperator { operator } => match view.operator {
            Some(_) => when(operator.text() == by.name.text(), Refusal::SelfDisable),
            None => Some(Refusal::NoOperator),
        },
        HallCommand::AddPool { .. } => when(view.has_pool, Refusal::Taken),
        HallCommand::Grant { .. } => first(&[
            when(!view.has_pool, Refusal::NoPool),
            when(view.operator.is_none(), Refusal::NoOperator),
            when(view.is_member, Refusal::Taken),
        ]),
        HallCommand::AddImage { .. } => when(view.image.is_some(), Refusal::Taken),
        HallCommand::DeleteImage { .. } => match view.image {
            Some(_) => when(view.image_used, Refusal::InUse),
            None => Some(Refusal::NoImage),
        },
        HallCommand::SetLive { .. } => when(view.image.is_none(), Refusal::NoImage),
        HallCommand::AddMachine { .. } => first(&[
            when(!view.has_pool, Refusal::NoPool),
            when(
                view.by_mac.is_some() || view.by_uuid.is_some(),
                Refusal::Taken,
            ),
            when(view.machines >= MAX_MACHINES, Refusal::Full),
            when(view.numbers.machine.next().is_none(), Refusal::Exhausted),
        ]),
        HallCommand::OnMachine {
            version,
            command,
            ..
        } => match view.machine {
            Some(machine) => cause_at(view, &machine, by, *version, command),
            None => Some(Refusal::NoMachine),
        },
    }
}

//! What commands make of a hall.
ghost use Rattle.std.specs.Prelude.{◌≡◌, [], ◌∷◌, IfOk, Ok, None};
ghost use Rattle.desk_command.specs.declared.effects.Subject.TheVariants as subject;
ghost use Rattle.desk_command.specs.{Prelude.{PutImage, PutInterface, PutMachine, PutNumbers, next_number, done}, Effect.{Effects, acted, added, disabled, edited, effect, live_image, machine_effect, moved_to_pool, prepared, raised}};

use crate::action::release_action;
use crate::view::CommandView;
use boot_desk::{DeskFault, entry_rows, machine_row};
use hall_events::{HallCommand, MachineCommand};
use hall_types::{
    Act, Arch, BootCount, Change, Image, Interface, LastIssued, Live, MacAddress, Machine,
    MachineUuid, Member, Moment, Name, Number, Numbers, Operator, Pool, Refusal, RowWrite, Status,
    Version,
};
use life_cycle::{Action, Signal, enter, next};
use std::alloc::{AllocError, Global};

/// What a command is answered, before it is a text.
#[derive(Clone, Copy)]
pub enum Subject {
    /// The machine as it is afterwards.
    Machine(Machine),
    /// The number of the machine that is gone.
    Gone(Number),
    Done,
}

type Effect = Result<(Change, Subject), DeskFault>;

// What a command sets before the machine enters its status.
fn prepared(command: &MachineCommand, by: &Operator, machine: &Machine) -> Machine
    ensures { result ≡ prepared command.now by.now machine.now }
{
    match *command {
        MachineCommand::Commission { tests } => Machine { tests, ..*machine },
        MachineCommand::Act(Act::Allocate) => Machine {
            owner: Some(by.name),
            ..*machine
        },
        MachineCommand::Deploy { image } => Machine {
            image: Some(image),
            ..*machine
        },
        MachineCommand::Release { erase } => Machine { erase, ..*machine },
        _ => *machine,
    }
}

// The machine takes the step that the table has for the action.
fn acted(
    alloc: Global,
    view: &CommandView,
    by: &Operator,
    machine: &Machine,
    command: &MachineCommand,
    moment: Moment,
    action: Action,
) -> Effect
    ensures { Effects result (acted view.now by.now machine.now command.now moment action) }
{
    let Some(step) = next(machine, Signal::By(action)) else {
        return Err(DeskFault::Refused(Refusal::WrongStatus));
    };
    let before = prepared(command, by, machine);
    let Ok(entered) = enter(&before, step, moment, view.numbers) else {
        return Err(DeskFault::Refused(Refusal::Exhausted));
    };
    let rows = entry_rows(alloc, machine, view.order, &entered)?;
    Ok((Change::from(rows), Subject::Machine(entered.machine)))
}

// A change of the row or of the interfaces raises the version.
fn raised(machine: &Machine) -> Machine
    ensures { result ≡ raised machine.now }
{
    Machine {
        version: machine.version.raised(),
        ..*machine
    }
}

// The answer about a machine.
fn about(machine: &Machine) -> Subject
    ensures { result ≡ subject.Machine machine.now }
{
    Subject::Machine(*machine)
}

// A row and another one.
fn two(alloc: Global, first: RowWrite, second: RowWrite) -> Result<Change, AllocError>
    ensures { IfOk result (λ rows. rows ≡ first ∷ second ∷ []) }
{
    let rows = vec![in alloc; first, second]?;
    Ok(Change::from(rows))
}

fn one(alloc: Global, row: RowWrite) -> Result<Change, AllocError>
    ensures { IfOk result (λ rows. rows ≡ row ∷ []) }
{
    let rows = vec![in alloc; row]?;
    Ok(Change::from(rows))
}

fn edited(alloc: Global, machine: &Machine, after: Machine) -> Effect
    ensures { Effects result (edited machine.now after []) }
{
    let subject = about(&after);
    let rows = one(alloc, machine_row(machine, after))?;
    Ok((rows, subject))
}

fn edited_with(alloc: Global, machine: &Machine, row: RowWrite) -> Effect
    ensures { Effects result (edited machine.now (raised machine.now) (row ∷ [])) }
{
    let after = raised(machine);
    let subject = about(&after);
    let rows = two(alloc, machine_row(machine, after), row)?;
    Ok((rows, subject))
}

fn moved_to_pool(alloc: Global, machine: &Machine, pool: Name) -> Effect
    ensures { Effects result (moved_to_pool machine.now pool) }
{
    if machine.pool.text() == pool.text() {
        return Ok((Change::from(Vec::new(alloc)), Subject::Machine(*machine)));
    }
    let after = Machine {
        pool,
        ..raised(machine)
    };
    edited(alloc, machine, after)
}

fn locked(alloc: Global, machine: &Machine, locked: bool) -> Effect
    ensures { Effects result (edited machine.now (record (raised machine.now) { locked = locked }) []) }
{
    let after = Machine {
        locked,
        ..raised(machine)
    };
    edited(alloc, machine, after)
}

fn machine_effect(
    alloc: Global,
    view: &CommandView,
    by: &Operator,
    machine: &Machine,
    command: &MachineCommand,
    moment: Moment,
) -> Effect
    ensures { Effects result (machine_effect view.now by.now machine.now command.now moment) }
{
    let action = match *command {
        MachineCommand::AddInterface { mac } => {
            let machine_of = machine.id;
            let row = RowWrite::PutInterface(Interface {
                mac,
                machine: machine_of,
            });
            return edited_with(alloc, machine, row);
        }
        MachineCommand::RemoveInterface { mac } => {
            return edited_with(alloc, machine, RowWrite::InterfaceGone(mac));
        }
        MachineCommand::SetPool { pool } => return moved_to_pool(alloc, machine, pool),
        MachineCommand::Delete => {
            let rows = one(alloc, RowWrite::MachineGone(machine.id))?;
            return Ok((rows, Subject::Gone(machine.id)));
        }
        MachineCommand::Act(Act::Lock) => return locked(alloc, machine, true),
        MachineCommand::Act(Act::Unlock) => return locked(alloc, machine, false),
        MachineCommand::Commission { .. } => Action::Commission,
        MachineCommand::Deploy { .. } => Action::Deploy,
        MachineCommand::Release { erase } => release_action(erase),
        MachineCommand::Act(act) => Action::Act(act),
    };
    acted(alloc, view, by, machine, command, moment, action)
}

fn added_rows(
    alloc: Global,
    machine: Machine,
    mac: MacAddress,
    numbers: Numbers,
) -> Result<Vec<RowWrite>, AllocError>
    ensures { IfOk result (λ rows. rows.items ≡ PutMachine machine None ∷ PutInterface (record { mac = mac; machine = machine.id }) ∷ PutNumbers (record numbers { machine = machine.id }) ∷ []) }
{
    let interface = Interface {
        mac,
        machine: machine.id,
    };
    let last = Numbers {
        machine: LastIssued::from(machine.id),
        ..numbers
    };
    let rows = vec![in alloc;
        RowWrite::PutMachine { machine, was: None },
        RowWrite::PutInterface(interface),
        RowWrite::PutNumbers(last),
    ]?;
    Ok(rows)
}

fn added(
    alloc: Global,
    view: &CommandView,
    mac: MacAddress,
    arch: Arch,
    pool: Name,
    uuid: Option<MachineUuid>,
) -> Effect
    ensures { Effects result (added view.now mac arch pool uuid (next_number view.now.numbers.machine)) }
{
    let Some(id) = view.numbers.machine.next() else {
        return Err(DeskFault::Refused(Refusal::Exhausted));
    };
    let machine = Machine::new(id, arch, pool, uuid);
    let subject = about(&machine);
    let rows = added_rows(alloc, machine, mac, view.numbers)?;
    Ok((Change::from(rows), subject))
}

fn disabled(alloc: Global, operator: Option<Operator>) -> Effect
    ensures { Effects result (disabled operator) }
{
    let Some(operator) = operator else {
        return Err(DeskFault::Refused(Refusal::NoOperator));
    };
    if !operator.enabled {
        return Ok((Change::from(Vec::new(alloc)), Subject::Done));
    }
    let row = RowWrite::PutOperator(Operator {
        enabled: false,
        ..operator
    });
    Ok((one(alloc, row)?, Subject::Done))
}

fn live_image(alloc: Global, image: Name, arch: Option<Arch>) -> Effect
    ensures { Effects result (live_image image arch) }
{
    let Some(arch) = arch else {
        return Err(DeskFault::Refused(Refusal::NoImage));
    };
    let row = RowWrite::PutLive(Live { arch, image });
    Ok((one(alloc, row)?, Subject::Done))
}

// One row is put, and nothing else is to be said.
fn put(alloc: Global, row: RowWrite) -> Effect
    ensures { Effects result (Ok (row ∷ [], done)) }
{
    Ok((one(alloc, row)?, Subject::Done))
}

fn put_image(alloc: Global, image: &Image) -> Effect
    ensures { Effects result (Ok (PutImage image.now ∷ [], done)) }
{
    let copy = image.copy(alloc)?;
    put(alloc, RowWrite::PutImage(copy))
}

/// The rows that a command writes if it isn't refused, and what it is answered.
#[tactic(auto, unfolding(crate::specs::Effect::effect))]
pub(crate) fn effect(
    alloc: Global,
    view: &CommandView,
    by: &Operator,
    command: &HallCommand,
    moment: Moment,
) -> Effect
    ensures { Effects result (effect view.now by.now command.now moment) }
{
    match command {
        HallCommand::AddOperator {
            operator,
            role,
            digest,
        } => put(
            alloc,
            RowWrite::PutOperator(Operator {
                name: *operator,
                role: *role,
                digest: *digest,
                enabled: true,
            }),
        ),
        HallCommand::DisableOperator { .. } => disabled(alloc, view.operator),
        HallCommand::AddPool { pool } => put(alloc, RowWrite::PutPool(Pool { name: *pool })),
        HallCommand::Grant { pool, operator } => put(
            alloc,
            RowWrite::PutMember(Member {
                pool: *pool,
                operator: *operator,
            }),
        ),
        HallCommand::AddImage { image } => put_image(alloc, image),
        HallCommand::DeleteImage { image } => put(alloc, RowWrite::ImageGone(*image)),
        HallCommand::SetLive { image } => live_image(alloc, *image, view.image),
        HallCommand::AddMachine {
            mac,
            arch,
            pool,
            uuid,
        } => added(alloc, view, *mac, *arch, *pool, *uuid),
        HallCommand::OnMachine { command, .. } => match view.machine {
            Some(machine) => machine_effect(alloc, view, by, &machine, command, moment),
            None => Err(DeskFault::Refused(Refusal::NoMachine)),
        },
    }
}

//! What a machine is given that asks for its script.
ghost use Rattle.std.specs.{Prelude.{◌≡◌, [], ◌∷◌, false, Ok, IfOk}, Option.option_copied};
ghost use Rattle.hall_types.specs.{Number.next_number, declared.change.RowWrite.TheVariants.{PutBoot, PutNumbers}};
ghost use Rattle.life_cycle.specs.Table.{step_of};
ghost use Rattle.boot_desk.specs.{Decided.Decides, Fetch.{booted, boots_after, fetched, image_for, is_fourth, issued, new_boot, offered_boot, worked_if}, Following.{answering, followed, machine_row}, Texts.{hold_script as hold_commands, work_script as work_commands}};

use crate::class::{ScriptClass, script_for};
use crate::fault::DeskFault;
use crate::following::{follow, machine_row};
use crate::texts::{hold_script, local_script, work_script};
use crate::views::BootView;
use hall_types::{
    Boot, BootCount, Change, Image, LastIssued, MAX_BOOTS, Machine, Moment, Number, Numbers,
    Purpose, Refusal, RowWrite, Stage, Status, Token,
};
use ipxe_script::Script;
use life_cycle::{Signal, next};
use pxe_vendor::Place;
use std::alloc::{AllocError, Global};

// A boot that is offered still.
fn offered_boot(boot: Option<Boot>) -> Option<Boot>
    ensures { result ≡ offered_boot boot }
{
    match boot {
        Some(boot) if matches!(boot.stage, Stage::Offered) => Some(boot),
        _ => None,
    }
}

fn image_for(purpose: Purpose, view: &BootView) -> Option<&Image>
    ensures { option_copied result ≡ image_for purpose view.now }
{
    match purpose {
        Purpose::Deploy => view.image.as_ref(),
        _ => view.live.as_ref(),
    }
}

// Whether three boots were issued in a status that counts them.
fn is_fourth(machine: &Machine) -> bool
    ensures { result ≡ is_fourth machine.now }
{
    machine.boots.get() == MAX_BOOTS && !matches!(machine.status, Status::Rescue)
}

// The count of boots after one more, which is not counted in Rescue mode.
fn boots_after(machine: &Machine) -> BootCount
    requires { is_fourth machine.now ≡ false }
    ensures { result ≡ boots_after machine.now.status machine.now.boots }
{
    match machine.status {
        Status::Rescue => machine.boots,
        _ => match machine.boots.next() {
            Some(boots) => boots,
            None => unreachable!(),
        },
    }
}

// The machine with its new boot.
fn booted(number: Number, machine: &Machine) -> Machine
    requires { is_fourth machine.now ≡ false }
    ensures { result ≡ booted number machine.now }
{
    Machine {
        boot: Some(number),
        boots: boots_after(machine),
        version: machine.version.raised(),
        ..*machine
    }
}

fn new_boot(number: Number, machine: &Machine, purpose: Purpose, fresh: Token) -> Boot
    ensures { result ≡ new_boot number machine.now purpose fresh }
{
    Boot {
        number,
        machine: machine.id,
        purpose,
        token: fresh,
        stage: Stage::Offered,
    }
}

// The rows of a new boot.
fn boot_rows(alloc: Global, view: &BootView, boot: Boot) -> Result<Change, AllocError>
    requires { is_fourth view.now.machine ≡ false }
    ensures { IfOk result (λ change. change ≡ machine_row view.now.machine (booted boot.number view.now.machine) ∷ PutBoot boot ∷ PutNumbers (record view.now.numbers { boot = boot.number }) ∷ []) }
{
    let machine = booted(boot.number, &view.machine);
    let numbers = Numbers {
        boot: LastIssued::from(boot.number),
        ..view.numbers
    };
    let mut rows = Vec::with_capacity(alloc, 3)?;
    rows.push(machine_row(&view.machine, machine))?;
    rows.push(RowWrite::PutBoot(boot))?;
    rows.push(RowWrite::PutNumbers(numbers))?;
    Ok(Change::from(rows))
}

// Nothing to write.
fn no_rows(alloc: Global) -> Change
    ensures { result ≡ [] }
{
    Change::from(Vec::new(alloc))
}

fn issue(
    alloc: Global,
    view: &BootView,
    place: &Place,
    purpose: Purpose,
    image: &Image,
    fresh: Token,
) -> Result<(Change, Script), DeskFault>
    requires { is_fourth view.now.machine ≡ false }
    ensures { Decides result (issued place.now.host view.now purpose image.now fresh (next_number view.now.numbers.boot)) }
{
    let Some(number) = view.numbers.boot.next() else {
        return Err(DeskFault::Refused(Refusal::Exhausted));
    };
    let boot = new_boot(number, &view.machine, purpose, fresh);
    let script = work_script(alloc, place, purpose, view.machine.erase, &boot, image)?;
    let rows = boot_rows(alloc, view, boot)?;
    Ok((rows, script))
}

// The machine fails its status for a fourth boot, and is held.
fn fail(alloc: Global, view: &BootView, moment: Moment) -> Result<(Change, Script), DeskFault>
    ensures { Decides result (answering hold_commands (followed [] view.now moment (step_of view.now.machine Signal.FourthBoot))) }
{
    let step = next(&view.machine, Signal::FourthBoot);
    let rows = follow(Vec::new(alloc), view, moment, step)?;
    let script = hold_script(alloc)?;
    Ok((rows, script))
}

fn hold(alloc: Global) -> Result<(Change, Script), DeskFault>
    ensures { Decides result (Ok ([], hold_commands)) }
{
    let script = hold_script(alloc)?;
    Ok((no_rows(alloc), script))
}

fn give_again(
    alloc: Global,
    view: &BootView,
    place: &Place,
    purpose: Purpose,
    image: &Image,
    boot: &Boot,
) -> Result<(Change, Script), DeskFault>
    ensures { Decides result (Ok ([], work_commands place.now.host purpose view.now.machine.erase boot.now image.now)) }
{
    let script = work_script(alloc, place, purpose, view.machine.erase, boot, image)?;
    Ok((no_rows(alloc), script))
}

fn work(
    alloc: Global,
    view: &BootView,
    place: &Place,
    moment: Moment,
    fresh: Token,
    purpose: Purpose,
) -> Result<(Change, Script), DeskFault>
    ensures { Decides result (worked_if place.now.host view.now moment fresh purpose (image_for purpose view.now)) }
{
    let Some(image) = image_for(purpose, view) else {
        return hold(alloc);
    };
    if let Some(boot) = offered_boot(view.boot) {
        return give_again(alloc, view, place, purpose, image, &boot);
    }
    if is_fourth(&view.machine) {
        return fail(alloc, view, moment);
    }
    issue(alloc, view, place, purpose, image, fresh)
}

/// The script for a machine, and the rows to write with it. `view` has the machine in rows of one sound hall, and
/// `fresh` is the arrival's fresh octets, the token of a new boot.
///
/// A machine whose status is one of work is given the boot that is offered again, if one is. Otherwise it fails
/// its status if three boots were issued there already, and is held. Otherwise a new boot is issued; `Exhausted` if all
/// numbers of boots were issued.
#[tactic(auto, unfolding(crate::specs::Fetch::fetched))]
pub fn fetch(
    alloc: Global,
    view: &BootView,
    place: &Place,
    moment: Moment,
    fresh: Token,
) -> Result<(Change, Script), DeskFault>
    ensures { Decides result (fetched place.now.host view.now moment fresh) }
{
    match script_for(&view.machine) {
        ScriptClass::Local => {
            let script = local_script(alloc, view.machine.arch)?;
            Ok((no_rows(alloc), script))
        }
        ScriptClass::Hold => hold(alloc),
        ScriptClass::Work(purpose) => work(alloc, view, place, moment, fresh, purpose),
    }
}

//! The script of a machine, by its status.
use crate::values::image_of;
use boot_desk::{ScriptClass, script_for, script_text};
use cases::{CaseFault, Out, Played, halves, parsed};
use hall_types::{Boot, Erase, Image, Machine, Number, Purpose, Stage, Token};
use play_log::{maybe, place};
use std::alloc::Global;

// The token of the boot.
const TOKEN: [u8; 16] = [0, 1, 2, 3, 4, 5, 6, 7, 8, 9, 10, 11, 12, 13, 14, 15];

// The first boot of the first machine, for a purpose.
fn boot_for(purpose: Purpose) -> Boot {
    Boot {
        number: Number::FIRST,
        machine: Number::FIRST,
        purpose,
        token: Token::from(TOKEN),
        stage: Stage::Offered,
    }
}

// The image live64 with one argument.
fn image(alloc: Global) -> Result<Image, CaseFault> {
    image_of(alloc, "quiet")?.map_err(|_| CaseFault::Form)
}

// The purpose of a machine's work, commissioning where it has none.
fn purpose_of(machine: &Machine) -> Purpose {
    match script_for(machine) {
        ScriptClass::Work(purpose) => purpose,
        ScriptClass::Local | ScriptClass::Hold => Purpose::Commission,
    }
}

/// The script of the first machine, `STATUS, ARCHITECTURE, ERASE, BOOT`: the kind of erasing that it keeps, or `-`, and whether it has a boot of
/// live64, `yes` or `-`.
pub fn text(rest: &str, out: &mut Out) -> Played {
    let (status, rest) = halves(rest, ", ")?;
    let (arch, rest) = halves(rest, ", ")?;
    let (erase, has_boot) = halves(rest, ", ")?;
    let mut machine = Machine::new(Number::FIRST, parsed(arch)?, parsed("default")?, None);
    machine.status = parsed(status)?;
    machine.erase = maybe::<Erase>(erase)?;
    let (place, image) = (place(out.alloc())?, image(out.alloc())?);
    let boot = boot_for(purpose_of(&machine));
    let work = (has_boot == "yes").then_some((&boot, &image));
    let script = script_text(out.alloc(), &machine, work, &place)?;
    out.push(script.print(out.alloc())?.as_str());
    Ok(())
}

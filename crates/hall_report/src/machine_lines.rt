//! A machine, field by field.
ghost use Rattle.std.specs.{Prelude.{◌≡◌, ◌++◌, Some, None, IfErr, IfOk, OnOk, codes, option_map, string_bytes}, Fmt.decimal};
ghost use Rattle.hall_report.specs.{Prelude.{Hall, erase_text, Reads}, Lines.{field_line, hardware_lines, holder_lines, machine_lines, machine_text, macs_if, or_dash, state_lines, uuid_text}};

use crate::columns::digits;
use crate::fault::ReportFault;
use crate::member::{macs_text, uuid_text, yes_no};
use hall_store::HallStore;
use hall_types::{Erase, Interface, Machine, MachineUuid, Name, Number};
use std::alloc::{AllocError, Global};

// What stands for a field that is absent.
const ABSENT: &str = "-";

fn push_field(text: &mut String, name: &str, field: &str) -> Result<(), AllocError>
    ensures { OnOk result (string_bytes text.new ≡ string_bytes text.old ++ field_line name.now field.now) }
{
    text.push_str(name)?;
    text.push(' ')?;
    text.push_str(field)?;
    text.push('\n')
}

fn push_number(alloc: Global, text: &mut String, name: &str, number: u64) -> Result<(), AllocError>
    ensures { OnOk result (string_bytes text.new ≡ string_bytes text.old ++ field_line name.now (decimal number)) }
{
    let digits = digits(alloc, number)?;
    push_field(text, name, digits.as_str())
}

fn push_state(alloc: Global, text: &mut String, machine: &Machine) -> Result<(), AllocError>
    ensures { OnOk result (string_bytes text.new ≡ string_bytes text.old ++ state_lines machine.now) }
{
    push_number(alloc, text, "machine", machine.id.get())?;
    push_field(text, "status", machine.status.text())?;
    push_number(alloc, text, "version", machine.version.get())?;
    push_field(text, "pool", machine.pool.text())
}

fn push_uuid(alloc: Global, text: &mut String, uuid: Option<MachineUuid>) -> Result<(), AllocError>
    ensures { OnOk result (string_bytes text.new ≡ string_bytes text.old ++ field_line (codes "uuid") (or_dash (option_map uuid_text uuid))) }
{
    match uuid {
        Some(uuid) => {
            let uuid = uuid_text(alloc, uuid)?;
            push_field(text, "uuid", uuid.as_str())
        }
        None => push_field(text, "uuid", ABSENT),
    }
}

fn push_hardware(alloc: Global, text: &mut String, machine: &Machine) -> Result<(), AllocError>
    ensures { OnOk result (string_bytes text.new ≡ string_bytes text.old ++ hardware_lines machine.now) }
{
    push_field(text, "arch", machine.arch.text())?;
    push_uuid(alloc, text, machine.uuid)
}

fn push_name(text: &mut String, name: &str, given: Option<Name>) -> Result<(), AllocError>
    ensures { OnOk result (string_bytes text.new ≡ string_bytes text.old ++ field_line name.now (or_dash given)) }
{
    match given {
        Some(given) => push_field(text, name, given.text()),
        None => push_field(text, name, ABSENT),
    }
}

fn push_erase(text: &mut String, erase: Option<Erase>) -> Result<(), AllocError>
    ensures { OnOk result (string_bytes text.new ≡ string_bytes text.old ++ field_line (codes "erase") (or_dash (option_map erase_text erase))) }
{
    match erase {
        Some(erase) => push_field(text, "erase", erase.text()),
        None => push_field(text, "erase", ABSENT),
    }
}

fn push_deadline(alloc: Global, text: &mut String, deadline: Option<u64>) -> Result<(), AllocError>
    ensures { OnOk result (string_bytes text.new ≡ string_bytes text.old ++ field_line (codes "deadline") (or_dash (option_map decimal deadline))) }
{
    match deadline {
        Some(deadline) => push_number(alloc, text, "deadline", deadline),
        None => push_field(text, "deadline", ABSENT),
    }
}

fn push_holder(alloc: Global, text: &mut String, machine: &Machine) -> Result<(), AllocError>
    ensures { OnOk result (string_bytes text.new ≡ string_bytes text.old ++ holder_lines machine.now) }
{
    push_name(text, "owner", machine.owner)?;
    push_name(text, "image", machine.image)?;
    push_erase(text, machine.erase)?;
    push_field(text, "locked", yes_no(machine.locked))?;
    push_deadline(alloc, text, machine.deadline)
}

fn push_interfaces(
    alloc: Global,
    text: &mut String,
    interfaces: &[Interface],
) -> Result<(), AllocError>
    ensures { OnOk result (string_bytes text.new ≡ string_bytes text.old ++ field_line (codes "interfaces") (or_dash (macs_if interfaces.now))) }
{
    if interfaces.is_empty() {
        return push_field(text, "interfaces", ABSENT);
    }
    let macs = macs_text(alloc, interfaces)?;
    push_field(text, "interfaces", macs.as_str())
}

fn machine_lines(
    alloc: Global,
    machine: &Machine,
    interfaces: &[Interface],
) -> Result<String, AllocError>
    ensures { IfOk result (λ text. string_bytes text ≡ machine_lines machine.now interfaces.now) }
{
    let mut text = String::new(alloc);
    push_state(alloc, &mut text, machine)?;
    push_hardware(alloc, &mut text, machine)?;
    push_holder(alloc, &mut text, machine)?;
    push_interfaces(alloc, &mut text, interfaces)?;
    Ok(text)
}

/// The machine with a number, one field a line: `machine`, `status`, `version`, `pool`, `arch`, `uuid`, `owner`, `image`,
/// `erase` as `quick` or `full`, `locked` as `yes` or `no`, `deadline` in seconds since 1970-01-01 00:00:00 UTC, and `interfaces` with the addresses, one
/// space apart. `-` stands for what is absent. The store isn't changed.
pub fn machine_text<S: HallStore>(
    alloc: Global,
    store: &mut S,
    id: Number,
) -> Result<String, ReportFault>
    ensures read { Reads S.HallStore store.old store.new result (λ h text. machine_text h id ≡ Some (string_bytes text)) }
    ensures missing { S.HallStore.is_clean store.new → IfErr result (λ fault. fault ≡ ReportFault.NoMachine → (h : Hall) → S.HallStore.holds store.old h → machine_text h id ≡ None) }
{
    let Some(machine) = store.machine(id)? else {
        return Err(ReportFault::NoMachine);
    };
    let interfaces = store.interfaces_of(alloc, id)?;
    Ok(machine_lines(alloc, &machine, &interfaces)?)
}

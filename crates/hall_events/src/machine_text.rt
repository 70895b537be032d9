//! Machines as answers list them, which are written member by member, in the order of their names' octets, without a tree of values.
ghost use Rattle.std.specs.Prelude.{◌≡◌, ◌++◌, codes, false, true, map, OnOk, string_bytes};
ghost use Rattle.serde_json.specs.{Data.{array, boolean, string}, View.items_of, Written.{comma_if as comma_before, compact_text}};
ghost use Rattle.hall_types.specs.{Hall.second, Kinds.erase_text};
ghost use Rattle.hall_events.specs.{Command.{mac_data, uuid_data}, Object.{count, or_null}, Reply.{first_members, last_members, listed, machine_data, middle_members}, WrittenMachine.written};

use crate::list_text::comma_if;
use crate::plain_text::push_text;
use hall_types::{Erase, Interface, Machine, MachineUuid, Name, Number};
use itoa::Buffer;
use std::alloc::{AllocError, Global};
use uuid::Uuid;

fn push_null(text: &mut String) -> Result<(), AllocError>
    ensures { OnOk result (string_bytes text.new ≡ string_bytes text.old ++ codes "null") }
{
    text.push_str("null")
}

fn push_count(text: &mut String, number: u64) -> Result<(), AllocError>
    ensures { OnOk result (string_bytes text.new ≡ string_bytes text.old ++ compact_text (count number)) }
{
    let mut buffer = Buffer::new();
    text.push_str(buffer.format(number))
}

fn push_moment(text: &mut String, moment: Option<u64>) -> Result<(), AllocError>
    ensures { OnOk result (string_bytes text.new ≡ string_bytes text.old ++ compact_text (or_null count moment)) }
{
    match moment {
        Some(moment) => push_count(text, moment),
        None => push_null(text),
    }
}

fn push_number(text: &mut String, number: Option<Number>) -> Result<(), AllocError>
    ensures { OnOk result (string_bytes text.new ≡ string_bytes text.old ++ compact_text (or_null count number)) }
{
    match number {
        Some(number) => push_count(text, number.get()),
        None => push_null(text),
    }
}

fn push_name(alloc: Global, text: &mut String, name: Option<Name>) -> Result<(), AllocError>
    ensures { OnOk result (string_bytes text.new ≡ string_bytes text.old ++ compact_text (or_null string name)) }
{
    match name {
        Some(name) => push_text(alloc, text, name.text()),
        None => push_null(text),
    }
}

fn push_erase(alloc: Global, text: &mut String, erase: Option<Erase>) -> Result<(), AllocError>
    ensures { OnOk result (string_bytes text.new ≡ string_bytes text.old ++ compact_text (or_null (λ e. string (erase_text e)) erase)) }
{
    match erase {
        Some(erase) => push_text(alloc, text, erase.text()),
        None => push_null(text),
    }
}

fn push_flag(text: &mut String, flag: bool) -> Result<(), AllocError>
    ensures { OnOk result (string_bytes text.new ≡ string_bytes text.old ++ compact_text (boolean flag)) }
{
    text.push_str(if flag { "true" } else { "false" })
}

fn push_uuid(alloc: Global, text: &mut String, uuid: Option<MachineUuid>) -> Result<(), AllocError>
    ensures { OnOk result (string_bytes text.new ≡ string_bytes text.old ++ compact_text (or_null uuid_data uuid)) }
{
    let Some(uuid) = uuid else {
        return push_null(text);
    };
    let mut buffer = Uuid::encode_buffer();
    let digits = Uuid::from_bytes(uuid.octets())
        .hyphenated()
        .encode_lower(&mut buffer);
    push_text(alloc, text, digits)
}

// One more address, with a comma before it if it's a later one. Its text needs no escape.
fn push_mac(text: &mut String, later: bool, interface: &Interface) -> Result<(), AllocError>
    ensures { OnOk result (string_bytes text.new ≡ string_bytes text.old ++ (comma_before later ++ compact_text (mac_data interface.now.mac))) }
{
    text.push_str(comma_if(later))?;
    text.push_str("\"")?;
    pxe_vendor::push_mac(text, &interface.mac.octets())?;
    text.push_str("\"")?;
    Ok(())
}

// The addresses of interfaces.
fn push_macs(text: &mut String, interfaces: &[Interface]) -> Result<(), AllocError>
    ensures { OnOk result (string_bytes text.new ≡ string_bytes text.old ++ compact_text (array (items_of (map mac_data (map (λ i. i.mac) interfaces.now))))) }
{
    text.push_str("[")?;
    let mut later = false;
    for interface in interfaces {
        push_mac(text, later, interface)?;
        later = true;
    }
    text.push_str("]")
}

fn push_first(alloc: Global, text: &mut String, machine: &Machine) -> Result<(), AllocError>
    ensures { OnOk result (string_bytes text.new ≡ string_bytes text.old ++ written false (first_members second machine.now)) }
{
    text.push_str("\"arch\":")?;
    push_text(alloc, text, machine.arch.text())?;
    text.push_str(",\"boot\":")?;
    push_number(text, machine.boot)?;
    text.push_str(",\"deadline\":")?;
    push_moment(text, machine.deadline)?;
    text.push_str(",\"erase\":")?;
    push_erase(alloc, text, machine.erase)?;
    text.push_str(",\"id\":")?;
    push_count(text, machine.id.get())?;
    Ok(())
}

fn push_middle(
    alloc: Global,
    text: &mut String,
    machine: &Machine,
    interfaces: &[Interface],
) -> Result<(), AllocError>
    ensures { OnOk result (string_bytes text.new ≡ string_bytes text.old ++ written true (middle_members (listed machine.now interfaces.now))) }
{
    text.push_str(",\"image\":")?;
    push_name(alloc, text, machine.image)?;
    text.push_str(",\"interfaces\":")?;
    push_macs(text, interfaces)?;
    text.push_str(",\"locked\":")?;
    push_flag(text, machine.locked)?;
    text.push_str(",\"order\":")?;
    push_number(text, machine.waiting)?;
    Ok(())
}

fn push_last(alloc: Global, text: &mut String, machine: &Machine) -> Result<(), AllocError>
    ensures { OnOk result (string_bytes text.new ≡ string_bytes text.old ++ written true (last_members machine.now)) }
{
    text.push_str(",\"owner\":")?;
    push_name(alloc, text, machine.owner)?;
    text.push_str(",\"pool\":")?;
    push_text(alloc, text, machine.pool.text())?;
    text.push_str(",\"status\":")?;
    push_text(alloc, text, machine.status.text())?;
    text.push_str(",\"uuid\":")?;
    push_uuid(alloc, text, machine.uuid)?;
    text.push_str(",\"version\":")?;
    push_count(text, machine.version.get())?;
    Ok(())
}

/// Writes a machine with its interfaces.
pub(crate) fn push_machine(
    alloc: Global,
    text: &mut String,
    machine: &Machine,
    interfaces: &[Interface],
) -> Result<(), AllocError>
    ensures { OnOk result (string_bytes text.new ≡ string_bytes text.old ++ compact_text (machine_data second (listed machine.now interfaces.now))) }
{
    text.push_str("{")?;
    push_first(alloc, text, machine)?;
    push_middle(alloc, text, machine, interfaces)?;
    push_last(alloc, text, machine)?;
    text.push_str("}")?;
    Ok(())
}

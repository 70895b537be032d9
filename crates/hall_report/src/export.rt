//! The export of all machines.
ghost use Rattle.std.specs.{Prelude.{◌≡◌, ◌≢◌, ◌==◌, ◌++◌, List, ℕ, filter, option_map, IfErr, IfOk, OnOk, string_bytes}, List.{flat_map, Sorted.IsNonDecreasingBy}};
ghost use Rattle.hall_report.specs.{Prelude.{AllText, fields_of, Reads}, Lines.uuid_text, Export.{HasWritten, export_text, hardware_fields, header, holder_fields, machine_fields, or_empty, record_text}};

use crate::columns::digits;
use crate::fault::ReportFault;
use crate::member::{macs_text, uuid_text, yes_no};
use csv::{StringRecord, Writer, WriterBuilder};
use hall_store::HallStore;
use hall_types::{Interface, Machine, MachineUuid, Name, own_interfaces, sort_by_machine};
use std::alloc::{AllocError, Global};

// Writes a record. An error over octets in memory is want of it.
fn write_record(writer: &mut Writer<Vec<u8>>, values: &StringRecord) -> Result<(), AllocError>
    ensures { (text : List ℕ) → HasWritten writer.old text → AllText (fields_of values.now) → OnOk result (HasWritten writer.new (text ++ record_text (fields_of values.now))) }
{
    if writer.write_byte_record(values.as_byte_record()).is_err() {
        return Err(AllocError);
    }
    Ok(())
}

fn header_record(alloc: Global) -> Result<StringRecord, AllocError>
    ensures { IfOk result (λ values. fields_of values ≡ header) }
{
    StringRecord::from_fields(
        alloc,
        &[
            "id", "macs", "arch", "uuid", "pool", "status", "owner", "image", "locked", "version",
        ],
    )
}

fn name_or_empty(name: &Option<Name>) -> &str
    ensures { result.now ≡ or_empty name.now }
{
    match name {
        Some(name) => name.text(),
        None => "",
    }
}

fn uuid_or_empty(alloc: Global, uuid: Option<MachineUuid>) -> Result<String, AllocError>
    ensures { IfOk result (λ text. string_bytes text ≡ or_empty (option_map uuid_text uuid)) }
{
    match uuid {
        Some(uuid) => uuid_text(alloc, uuid),
        None => Ok(String::new(alloc)),
    }
}

fn push_hardware(
    alloc: Global,
    values: &mut StringRecord,
    machine: &Machine,
    own: &[Interface],
) -> Result<(), AllocError>
    ensures { OnOk result (fields_of values.new ≡ fields_of values.old ++ hardware_fields machine.now own.now) }
{
    values.push_field(digits(alloc, machine.id.get())?.as_str())?;
    values.push_field(macs_text(alloc, own)?.as_str())?;
    values.push_field(machine.arch.text())?;
    values.push_field(uuid_or_empty(alloc, machine.uuid)?.as_str())
}

fn push_holder(
    alloc: Global,
    values: &mut StringRecord,
    machine: &Machine,
) -> Result<(), AllocError>
    ensures { OnOk result (fields_of values.new ≡ fields_of values.old ++ holder_fields machine.now) }
{
    values.push_field(machine.pool.text())?;
    values.push_field(machine.status.text())?;
    values.push_field(name_or_empty(&machine.owner))?;
    values.push_field(name_or_empty(&machine.image))?;
    values.push_field(yes_no(machine.locked))?;
    values.push_field(digits(alloc, machine.version.get())?.as_str())
}

fn machine_record(
    alloc: Global,
    machine: &Machine,
    own: &[Interface],
) -> Result<StringRecord, AllocError>
    ensures { IfOk result (λ values. fields_of values ≡ machine_fields machine.now own.now) }
{
    let mut values = StringRecord::new(alloc);
    push_hardware(alloc, &mut values, machine, own)?;
    push_holder(alloc, &mut values, machine)?;
    Ok(values)
}

// The text that a writer has written.
fn written_text(writer: Writer<Vec<u8>>) -> Result<String, AllocError>
    requires { (text : List ℕ) × HasWritten writer text }
    ensures { (text : List ℕ) → HasWritten writer text → IfOk result (λ written. string_bytes written ≡ text) }
{
    let Ok(octets) = writer.into_inner() else {
        return Err(AllocError);
    };
    match String::from_utf8(octets) {
        Ok(text) => Ok(text),
        Err(_) => unreachable!(),
    }
}

// The records of machines, each with its interfaces, which are sorted by machine.
fn sorted_export(
    alloc: Global,
    machines: &[Machine],
    interfaces: &[Interface],
) -> Result<String, AllocError>
    requires { IsNonDecreasingBy (λ i. i.machine) interfaces.now }
    ensures { IfOk result (λ text. string_bytes text
        ≡ record_text header ++ flat_map (λ m. record_text (machine_fields m (filter (λ i. i.machine == m.id) interfaces.now))) machines.now) }
{
    let mut writer = WriterBuilder::new().from_writer(Vec::new(alloc));
    write_record(&mut writer, &header_record(alloc)?)?;
    for machine in machines {
        let own = own_interfaces(interfaces, machine.id);
        write_record(&mut writer, &machine_record(alloc, machine, own)?)?;
    }
    written_text(writer)
}

// The records of machines, each with its interfaces.
fn machines_export(
    alloc: Global,
    machines: &[Machine],
    interfaces: &mut Vec<Interface>,
) -> Result<String, AllocError>
    ensures { IfOk result (λ text. string_bytes text
        ≡ record_text header ++ flat_map (λ m. record_text (machine_fields m (filter (λ i. i.machine == m.id) interfaces.old.items))) machines.now) }
{
    sort_by_machine(interfaces)?;
    sorted_export(alloc, machines, interfaces)
}

/// All machines by number as comma-separated values (RFC 4180): the header
/// `id,macs,arch,uuid,pool,status,owner,image,locked,version`, and a record for each, with the addresses one space apart,
/// nothing for what is absent, and `yes` or `no` for `locked`. Each record ends with LF. The store isn't changed. The faults
/// are `Unavailable` and `Memory`.
pub fn export_text<S: HallStore>(alloc: Global, store: &mut S) -> Result<String, ReportFault>
    ensures read { Reads S.HallStore store.old store.new result (λ h text. string_bytes text ≡ export_text h) }
    ensures fault { IfErr result (λ fault. fault ≢ ReportFault.NoMachine) }
{
    let machines = store.machines(alloc)?;
    let mut interfaces = store.interfaces(alloc)?;
    Ok(machines_export(alloc, &machines, &mut interfaces)?)
}

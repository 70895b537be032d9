//! Reports on a hall, and the export of its machines.
ghost use Rattle.std.specs.{Prelude.{◌≡◌, ◌≢◌, ℕ, List, Err, IfErr, string_bytes}, Io.KnownBytes.Appends};
ghost use Rattle.desk_operations.specs.{Prelude.{Hall, Reads, export_text, IsReportFault, IsStoreFault}, Report.{IsMissing, IsReport}};

use crate::writing::write_text;
use hall_report::{Fault, What, export_text, hall_text, machine_text, order_text};
use hall_store::HallStore;
use hall_types::Number;
use std::alloc::Global;
use std::io::Write;

fn text_of_machine<S: HallStore>(alloc: Global, store: &mut S, id: u64) -> Result<String, Fault>
    ensures read { Reads S.HallStore store.old store.new result (λ h text. IsReport (What.Machine id) h (string_bytes text)) }
    ensures missing { S.HallStore.is_clean store.new → result ≡ Err Fault.NoMachine → (h : Hall) → S.HallStore.holds store.old h → IsMissing (What.Machine id) h }
    ensures fault { IfErr result IsReportFault }
    ensures no_io { IfErr result (λ fault. fault ≢ Fault.Io) }
{
    let Ok(id) = Number::new(id) else {
        return Err(Fault::NoMachine);
    };
    Ok(machine_text(alloc, store, id)?)
}

fn report_text<S: HallStore>(alloc: Global, store: &mut S, what: What) -> Result<String, Fault>
    ensures read { Reads S.HallStore store.old store.new result (λ h text. IsReport what h (string_bytes text)) }
    ensures missing { S.HallStore.is_clean store.new → result ≡ Err Fault.NoMachine → (h : Hall) → S.HallStore.holds store.old h → IsMissing what h }
    ensures fault { IfErr result IsReportFault }
    ensures no_io { IfErr result (λ fault. fault ≢ Fault.Io) }
{
    match what {
        What::Hall => Ok(hall_text(alloc, store)?),
        What::Orders => Ok(order_text(alloc, store)?),
        What::Machine(id) => text_of_machine(alloc, store, id),
    }
}

/// Writes a report on the hall of a store, which isn't changed.
///
/// # Errors
///
/// `NoMachine` where no machine has the number, `Io` where a write failed, `Unavailable` and `Memory`. Nothing is written
/// but before `Io`.
pub fn report<S: HallStore, W: Write>(
    alloc: Global,
    store: &mut S,
    writer: &mut W,
    what: What,
) -> Result<(), Fault>
    ensures read { Reads S.HallStore store.old store.new result
        (λ h _. (text : List ℕ) × IsReport what h text × Appends (W.contents writer.old) (W.contents writer.new) text) }
    ensures missing { S.HallStore.is_clean store.new → result ≡ Err Fault.NoMachine → (h : Hall) → S.HallStore.holds store.old h → IsMissing what h }
    ensures fault { IfErr result IsReportFault }
    ensures nothing { IfErr result (λ fault. fault ≢ Fault.Io → writer.new ≡ writer.old) }
{
    let text = report_text(alloc, store, what)?;
    write_text(writer, text.as_str())
}

/// Writes all machines of a store's hall as comma-separated values (RFC 4180). The store isn't changed.
///
/// # Errors
///
/// `Io` where a write failed, `Unavailable` and `Memory`. Nothing is written but before `Io`.
pub fn export<S: HallStore, W: Write>(
    alloc: Global,
    store: &mut S,
    writer: &mut W,
) -> Result<(), Fault>
    ensures read { Reads S.HallStore store.old store.new result
        (λ h _. Appends (W.contents writer.old) (W.contents writer.new) (export_text h)) }
    ensures fault { IfErr result IsStoreFault }
    ensures nothing { IfErr result (λ fault. fault ≢ Fault.Io → writer.new ≡ writer.old) }
{
    let text = export_text(alloc, store)?;
    write_text(writer, text.as_str())
}

//! The import of new machines.
ghost use Rattle.std.specs.Prelude.{◌≡◌, ◌≢◌, ◌⊎◌, ℕ, List, [], ◌∷◌, true, Ok, Err, IfErr, IfOk, IsErr, OnErr, if◌then◌else◌, string_bytes};
ghost use Rattle.hall_report.specs.declared.fault.ImportFault.TheVariants as cause;
ghost use Rattle.desk_operations.specs.{Prelude.{Hall, IsSound, site_of, store_of, import_in, ImportRow, IsImportFault, IsLeft, IsSettled, IsStoreFault, Item, Origin}, Import.{AndCutImport, GoOn, GoOnBy, IsImported, IsRowAnswered, IsRowDone, IsRowStopped, IsStopped, SettlesByAll, event_of, is_ok, row_line}};

use crate::writing::write_text;
use hall_desk::Desk;
use hall_events::{Event, HallCommand, Reply};
use hall_laws::{decisions_keep_the_rules, steps_keep_halls_sound};
use hall_report::{Fault, ImportRow, import_rows};
use hall_store::{HallStore, Unavailable};
use hall_types::{Digest, Moment, Refusal, Token};
use std::alloc::{AllocError, Global};
use std::io::Write;

/// How an import ended.
#[derive(Clone, Copy, PartialEq, Eq)]
pub enum Imported {
    /// Each row was answered with the status 200.
    All,
    /// A row was answered with another status.
    NotAll,
}

// The number of a row, the status and the body of its answer, one space apart, and a line feed.
fn row_line(alloc: Global, number: u64, status: u16, body: &str) -> Result<String, AllocError>
    ensures { IfOk result (λ text. string_bytes text ≡ row_line number status body.now) }
{
    let mut text = number.to_string(alloc)?;
    text.push(' ')?;
    text.push_str(status.to_string(alloc)?.as_str())?;
    text.push(' ')?;
    text.push_str(body)?;
    text.push('\n')?;
    Ok(text)
}

// No boot is issued for a command, so its fresh octets are of no use.
const UNUSED: [u8; 16] = [0; 16];

fn event_of(row: &ImportRow, bearer: Digest) -> Event
    ensures { result ≡ event_of bearer row.now }
{
    Event::Command {
        bearer: Some(bearer),
        key: row.key,
        command: HallCommand::AddMachine {
            mac: row.mac,
            arch: row.arch,
            pool: row.pool,
            uuid: row.uuid,
        },
    }
}

// Adds the machine of a row, and gives the answer. A store that can't answer is answered Unavailable.
fn answer_row<S: HallStore>(
    alloc: Global,
    desk: &mut Desk<S>,
    row: &ImportRow,
    bearer: Digest,
    moment: Moment,
) -> Result<Reply, AllocError>
    ensures clean { S.HallStore.is_clean (store_of desk.new) → S.HallStore.is_clean (store_of desk.old) }
    ensures site { site_of desk.new ≡ site_of desk.old }
    ensures answered { S.HallStore.is_clean (store_of desk.new) → IfOk result (λ reply. (h : Hall) → S.HallStore.holds (store_of desk.old) h → IsSound h
        → IsRowAnswered S.HallStore (store_of desk.new) (site_of desk.old) bearer moment h row.now reply) }
    ensures history { S.HallStore.is_clean (store_of desk.new) → GoOn S.HallStore (store_of desk.old) (store_of desk.new) (site_of desk.old) bearer moment }
    ensures in_turn { S.HallStore.is_clean (store_of desk.new) → GoOnBy S.HallStore (store_of desk.old) (store_of desk.new) (site_of desk.old) bearer moment (row.now ∷ []) }
    ensures settled { S.HallStore.is_clean (store_of desk.new) → IfOk result (λ reply. is_ok reply ≡ true → SettlesByAll S.HallStore (store_of desk.old) (store_of desk.new) (site_of desk.old) bearer moment (row.now ∷ [])) }
    ensures missed { S.HallStore.is_clean (store_of desk.new) → OnErr result ((h : Hall) → S.HallStore.holds (store_of desk.old) h → S.HallStore.holds (store_of desk.new) h) }
{
    steps_keep_halls_sound();
    decisions_keep_the_rules();
    let event = event_of(row, bearer);
    let stepped = desk.step(alloc, &event, moment, Token::from(UNUSED));
    drop(event);
    match stepped {
        Ok(reply) => Ok(reply),
        Err(Unavailable) => Reply::refused(alloc, Refusal::Unavailable),
    }
}

// Adds the machine of a row, writes the row's line, and says whether the answer has the status 200. The reply to a command
// is a response, unless a disk's wrong answer was taken for a right one.
fn add_row<S: HallStore, W: Write>(
    alloc: Global,
    desk: &mut Desk<S>,
    writer: &mut W,
    number: u64,
    row: &ImportRow,
    bearer: Digest,
    moment: Moment,
) -> Result<bool, Fault>
    ensures clean { S.HallStore.is_clean (store_of desk.new) → S.HallStore.is_clean (store_of desk.old) }
    ensures site { site_of desk.new ≡ site_of desk.old }
    ensures done { S.HallStore.is_clean (store_of desk.new) → IfOk result (λ was_ok. (h : Hall) → S.HallStore.holds (store_of desk.old) h → IsSound h
        → IsRowDone S.HallStore (store_of desk.new) (site_of desk.old) bearer moment h number row.now was_ok (W.contents writer.old) (W.contents writer.new)) }
    ensures stopped { S.HallStore.is_clean (store_of desk.new) → IfErr result (λ fault. (h : Hall) → S.HallStore.holds (store_of desk.old) h → IsSound h
        → IsRowStopped S.HallStore (store_of desk.new) (site_of desk.old) bearer moment h row.now fault (W.contents writer.old) (W.contents writer.new)) }
    ensures history { S.HallStore.is_clean (store_of desk.new) → GoOn S.HallStore (store_of desk.old) (store_of desk.new) (site_of desk.old) bearer moment }
    ensures in_turn { S.HallStore.is_clean (store_of desk.new) → GoOnBy S.HallStore (store_of desk.old) (store_of desk.new) (site_of desk.old) bearer moment (row.now ∷ []) }
    ensures settled { S.HallStore.is_clean (store_of desk.new) → IfOk result (λ was_ok. was_ok ≡ true → SettlesByAll S.HallStore (store_of desk.old) (store_of desk.new) (site_of desk.old) bearer moment (row.now ∷ [])) }
    ensures fault { IfErr result IsStoreFault }
{
    let reply = answer_row(alloc, desk, row, bearer, moment)?;
    let Reply::Http { status, body, .. } = reply else {
        return Err(Fault::Unavailable);
    };
    let line = row_line(alloc, number, status, body.as_str())?;
    write_text(writer, line.as_str())?;
    Ok(status == 200)
}

// How the rows end with one more.
fn after_reply(end: Imported, was_ok: bool) -> Imported
    ensures { result ≡ (if was_ok then end else Imported.NotAll) }
{
    if was_ok { end } else { Imported::NotAll }
}

fn add_rows<S: HallStore, W: Write>(
    alloc: Global,
    desk: &mut Desk<S>,
    writer: &mut W,
    rows: &[ImportRow],
    bearer: Digest,
    moment: Moment,
) -> Result<Imported, Fault>
    ensures clean { S.HallStore.is_clean (store_of desk.new) → S.HallStore.is_clean (store_of desk.old) }
    ensures site { site_of desk.new ≡ site_of desk.old }
    ensures imported { S.HallStore.is_clean (store_of desk.new) → IfOk result (λ end. (h : Hall) → S.HallStore.holds (store_of desk.old) h → IsSound h
        → IsImported S.HallStore (store_of desk.new) (site_of desk.old) bearer moment h rows.now end (W.contents writer.old) (W.contents writer.new)) }
    ensures stopped { S.HallStore.is_clean (store_of desk.new) → IfErr result (λ fault. (h : Hall) → S.HallStore.holds (store_of desk.old) h → IsSound h
        → IsStopped S.HallStore (store_of desk.new) (site_of desk.old) bearer moment h rows.now fault (W.contents writer.old) (W.contents writer.new)) }
    ensures history { S.HallStore.is_clean (store_of desk.new) → GoOn S.HallStore (store_of desk.old) (store_of desk.new) (site_of desk.old) bearer moment }
    ensures in_turn { S.HallStore.is_clean (store_of desk.new) → GoOnBy S.HallStore (store_of desk.old) (store_of desk.new) (site_of desk.old) bearer moment rows.now }
    ensures settled { S.HallStore.is_clean (store_of desk.new) → IfOk result (λ end. end ≡ Imported.All → SettlesByAll S.HallStore (store_of desk.old) (store_of desk.new) (site_of desk.old) bearer moment rows.now) }
    ensures fault { IfErr result IsStoreFault }
{
    let mut end = Imported::All;
    for (place, row) in rows.iter().enumerate() {
        let number = place as u64 + 1;
        let was_ok = add_row(alloc, desk, writer, number, row, bearer, moment)?;
        end = after_reply(end, was_ok);
    }
    Ok(end)
}

/// Adds the machines of a file of comma-separated values, each by a command of the operator whose token has the digest, with
/// the row's key and at the moment. A line is written for each row: its number from 1 on, the status of the answer and its
/// body. Whatever comes of it, the rows that came go on from the hall's history, in the file's order. A row to which the store can't answer
/// counts as not having come, and its line has the refusal Unavailable. All rows are read before one is applied. A stop leaves, of a store
/// that was settled, the hall after some of the rows, or after one more whose reply wasn't given; after `All` it is settled with all of them.
///
/// # Errors
///
/// `BadHeader` and `BadRow` where the file is malformed: then nothing was applied or written, nor if memory ran out before that was
/// found. `Io` and `Memory` may come after some rows: those whose lines are there are applied, and perhaps the next one, whose line isn't.
/// After `Io` the writer may have anything of that line. An import that is repeated answers applied rows by their keys as
/// before.
pub fn import<S: HallStore, W: Write>(
    alloc: Global,
    desk: &mut Desk<S>,
    writer: &mut W,
    octets: &[u8],
    bearer: Digest,
    moment: Moment,
) -> Result<Imported, Fault>
    ensures clean { S.HallStore.is_clean (store_of desk.new) → S.HallStore.is_clean (store_of desk.old) }
    ensures site { site_of desk.new ≡ site_of desk.old }
    ensures imported { S.HallStore.is_clean (store_of desk.new) → IfOk result (λ end. (rows : List ImportRow) × (import_in octets.now ≡ Ok rows) × ((h : Hall) → S.HallStore.holds (store_of desk.old) h → IsSound h
        → IsImported S.HallStore (store_of desk.new) (site_of desk.old) bearer moment h rows end (W.contents writer.old) (W.contents writer.new))) }
    ensures stopped { S.HallStore.is_clean (store_of desk.new) → IfErr result (λ fault. (rows : List ImportRow) → import_in octets.now ≡ Ok rows → (h : Hall) → S.HallStore.holds (store_of desk.old) h → IsSound h
        → IsStopped S.HallStore (store_of desk.new) (site_of desk.old) bearer moment h rows fault (W.contents writer.old) (W.contents writer.new)) }
    ensures history { S.HallStore.is_clean (store_of desk.new) → GoOn S.HallStore (store_of desk.old) (store_of desk.new) (site_of desk.old) bearer moment }
    ensures in_turn { S.HallStore.is_clean (store_of desk.new) → (rows : List ImportRow) → import_in octets.now ≡ Ok rows
        → GoOnBy S.HallStore (store_of desk.old) (store_of desk.new) (site_of desk.old) bearer moment rows }
    ensures stop { S.HallStore.is_clean (store_of desk.new) → (rows : List ImportRow) → import_in octets.now ≡ Ok rows
        → (origin : Origin) (past : List Item) → IsSettled S.HallStore (store_of desk.old) origin past
        → IsLeft S.HallStore (store_of desk.new) origin (AndCutImport past (site_of desk.old) bearer moment rows) }
    ensures settled { S.HallStore.is_clean (store_of desk.new) → IfOk result (λ end. end ≡ Imported.All → (rows : List ImportRow) → import_in octets.now ≡ Ok rows
        → SettlesByAll S.HallStore (store_of desk.old) (store_of desk.new) (site_of desk.old) bearer moment rows) }
    ensures fault { IfErr result IsImportFault }
    ensures bad_header { result ≡ Err Fault.BadHeader → import_in octets.now ≡ Err cause.BadHeader }
    ensures bad_row { result ≡ Err Fault.BadRow → (n : ℕ) × (import_in octets.now ≡ Err (cause.BadRow n)) }
    ensures malformed { IsErr (import_in octets.now) → (desk.new ≡ desk.old) × (writer.new ≡ writer.old) }
{
    let rows = import_rows(alloc, octets)?;
    add_rows(alloc, desk, writer, &rows, bearer, moment)
}

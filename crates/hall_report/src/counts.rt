//! How many machines each pool has in each status.
ghost use Rattle.std.specs.{Prelude.{◌≡◌, ◌≢◌, ◌++◌, IfErr, IfOk, OnOk, string_bytes, sum_by}, Fmt.decimal};
ghost use Rattle.hall_report.specs.{Prelude.Reads, Lines.{IsHallText, count_line, counts_text, table_line, total_line}};

use crate::columns::{digits, push_left, push_right};
use crate::fault::ReportFault;
use hall_store::{Count, HallStore};
use std::alloc::{AllocError, Global};

// The widths of the columns. A name has at most 32 characters, a status at most 27.
const POOL_WIDTH: usize = 32;

const STATUS_WIDTH: usize = 27;

const COUNT_WIDTH: usize = 6;

// The columns of pool and status, with the space between them.
const BOTH_WIDTH: usize = 60;

fn push_row(text: &mut String, pool: &str, status: &str, count: &str) -> Result<(), AllocError>
    ensures { OnOk result (string_bytes text.new ≡ string_bytes text.old ++ table_line pool.now status.now count.now) }
{
    push_left(text, POOL_WIDTH, pool)?;
    text.push(' ')?;
    push_left(text, STATUS_WIDTH, status)?;
    text.push(' ')?;
    push_right(text, COUNT_WIDTH, count)?;
    text.push('\n')
}

fn push_count(alloc: Global, text: &mut String, count: &Count) -> Result<(), AllocError>
    ensures { OnOk result (string_bytes text.new ≡ string_bytes text.old ++ count_line count.now) }
{
    let machines = digits(alloc, count.machines)?;
    push_row(
        text,
        count.pool.text(),
        count.status.text(),
        machines.as_str(),
    )
}

// How many machines there are. 64 bits may be too few for what a store answers.
fn total_of(counts: &[Count]) -> u128
    ensures { result ≡ sum_by (λ c. c.machines) counts.now }
{
    let mut total = 0u128;
    for count in counts {
        total += u128::from(count.machines);
    }
    total
}

fn push_total(alloc: Global, text: &mut String, total: u128) -> Result<(), AllocError>
    ensures { OnOk result (string_bytes text.new ≡ string_bytes text.old ++ total_line total) }
{
    let machines = total.to_string(alloc)?;
    push_left(text, BOTH_WIDTH, "total")?;
    text.push(' ')?;
    push_right(text, COUNT_WIDTH, machines.as_str())?;
    text.push('\n')
}

// Writes the header, a line for each count, and the sum.
fn push_all(alloc: Global, text: &mut String, counts: &[Count]) -> Result<(), AllocError>
    ensures { OnOk result (string_bytes text.new ≡ string_bytes text.old ++ counts_text counts.now) }
{
    push_row(text, "pool", "status", "count")?;
    for count in counts {
        push_count(alloc, text, count)?;
    }
    push_total(alloc, text, total_of(counts))
}

fn counts_text(alloc: Global, counts: &[Count]) -> Result<String, AllocError>
    ensures { IfOk result (λ text. string_bytes text ≡ counts_text counts.now) }
{
    let mut text = String::new(alloc);
    push_all(alloc, &mut text, counts)?;
    Ok(text)
}

/// How many machines each pool has in each status, by the pool's name and the status's number, one a line, after a header
/// and before the sum. The store isn't changed. The faults are `Unavailable` and `Memory`.
pub fn hall_text<S: HallStore>(alloc: Global, store: &mut S) -> Result<String, ReportFault>
    ensures read { Reads S.HallStore store.old store.new result (λ h text. IsHallText h (string_bytes text)) }
    ensures fault { IfErr result (λ fault. fault ≢ ReportFault.NoMachine) }
{
    let counts = store.counts(alloc)?;
    Ok(counts_text(alloc, &counts)?)
}

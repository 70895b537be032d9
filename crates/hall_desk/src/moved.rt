//! A machine's move from one status to another.
ghost use Rattle.std.specs.Prelude.{◌≡◌};
ghost use Rattle.hall_desk.specs.Moved.{is_status, moved_by, moved_by_put, moved_by_row, status_seen};

use hall_types::{Change, Machine, Number, RowWrite, Status};

/// A machine that was read, and its status then.
#[derive(Clone, Copy)]
pub struct Seen {
    pub machine: Number,
    pub status: Status,
}

/// A machine whose status is another than before.
#[derive(Clone, Copy)]
pub struct Moved {
    pub machine: Number,
    /// The status before, none where the machine is new.
    pub from: Option<Status>,
    /// The status now, none where the machine is gone.
    pub to: Option<Status>,
}

// The status that a machine was seen with, none where another machine was seen.
fn status_seen(seen: &Option<Seen>, machine: Number) -> Option<Status>
    ensures { result ≡ status_seen seen.now machine }
{
    match seen {
        Some(seen) if seen.machine.get() == machine.get() => Some(seen.status),
        _ => None,
    }
}

fn is_status(from: Option<Status>, status: Status) -> bool
    ensures { result ≡ is_status from status }
{
    match from {
        Some(from) => from.number() == status.number(),
        None => false,
    }
}

fn moved_by_put(seen: &Option<Seen>, machine: &Machine) -> Option<Moved>
    ensures { result ≡ moved_by_put seen.now machine.now }
{
    let from = status_seen(seen, machine.id);
    if is_status(from, machine.status) {
        return None;
    }
    Some(Moved {
        machine: machine.id,
        from,
        to: Some(machine.status),
    })
}

fn moved_by_row(seen: &Option<Seen>, row: &RowWrite) -> Option<Moved>
    ensures { result ≡ moved_by_row seen.now row.now }
{
    match row {
        RowWrite::PutMachine { machine, .. } => moved_by_put(seen, machine),
        RowWrite::MachineGone(machine) => Some(Moved {
            machine: *machine,
            from: status_seen(seen, *machine),
            to: None,
        }),
        _ => None,
    }
}

/// The move that a change makes of the machine that was seen with a status, or of another one, which is new. Where a change
/// moves several machines it's the first one's.
pub(crate) fn moved_by(seen: &Option<Seen>, change: &Change) -> Option<Moved>
    ensures { result ≡ moved_by seen.now change.now }
{
    for row in change.writes() {
        if let Some(moved) = moved_by_row(seen, row) {
            return Some(moved);
        }
    }
    None
}

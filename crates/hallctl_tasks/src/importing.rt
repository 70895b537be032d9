//! The machines of a file are added.
use crate::end::{EarlyEnd, Step, TaskEnd, TaskFault};
use crate::sending::Sending;
use crate::session::Session;
use crate::surroundings::Surroundings;
use hall_events::HallCommand;
use hall_report::{ImportFault, ImportRow, import_rows};
use std::alloc::AllocError;

pub(crate) fn command_of(row: &ImportRow) -> HallCommand {
    HallCommand::AddMachine {
        mac: row.mac,
        arch: row.arch,
        pool: row.pool,
        uuid: row.uuid,
    }
}

impl<S: Surroundings> Session<'_, S> {
    fn add_row(&mut self, row: &ImportRow) -> Step<TaskEnd> {
        let command = command_of(row);
        let end = self.send(&Sending {
            key: row.key,
            command: &command,
            before: None,
            instead: ", or import the file again",
        });
        drop(command);
        end
    }

    // Reports how far an import came that stops at a row.
    fn report_left(&mut self, done: usize, refused: usize, all: usize) -> Result<(), AllocError> {
        let left = all.saturating_sub(done).saturating_sub(refused);
        self.report(format_args!(
            "of {all} rows {done} are done, {refused} refused and {left} left"
        ))
    }

    // Adds the machines of the rows. A row without an answer is the last.
    fn add_rows(&mut self, rows: &[ImportRow]) -> Step<TaskEnd> {
        let mut end = TaskEnd::Done;
        let mut refused: usize = 0;
        for (place, row) in rows.iter().enumerate() {
            let one = self.add_row(row)?;
            end = end.and_then(one);
            if one.is_last() {
                self.report_left(place.saturating_sub(refused), refused, rows.len())?;
                return Ok(end);
            }
            if one == TaskEnd::Refused {
                refused = refused.saturating_add(1);
            }
            self.report_progress(place.saturating_add(1), rows.len())?;
        }
        Ok(end)
    }

    /// The rows of a file of machines.
    pub(crate) fn rows_of(&mut self, path: &str) -> Step<Vec<ImportRow>> {
        let octets = match self.surroundings.octets_of(self.alloc, path) {
            Ok(octets) => octets,
            Err(fault) => return self.end_by_file(path, fault),
        };
        match import_rows(self.alloc, octets.as_slice()) {
            Ok(rows) => Ok(rows),
            Err(ImportFault::BadHeader) => {
                self.end_by_file(path, "its first line must be key,mac,arch,uuid,pool")
            }
            Err(ImportFault::BadRow(number)) => self.end_by_file(
                path,
                format_args!(
                    "row {number} is bad: a key, an address, an architecture, a UUID or nothing, a pool"
                ),
            ),
            Err(ImportFault::Memory) => Err(EarlyEnd::Fault(TaskFault::Memory)),
        }
    }

    /// Adds the machines of a file, each with the key of its row, so that the file may be imported again.
    pub(crate) fn import(&mut self, path: &str) -> Step<TaskEnd> {
        let rows = self.rows_of(path)?;
        self.add_rows(rows.as_slice())
    }
}

//! The log of a service's turns.
use crate::outlet::{Outlet, Text};
use crate::turn_lines::turn_line;
use desk_lines::{
    Backup, Failures, arrival_members, arrival_text, backup_line, is_of_note, unstamped_line,
};
use hall_desk::{Account, Answer, What};
use hall_report::LogFormat;
use hall_types::Moment;
use serve_sockets::{Turn, TurnLog};
use std::alloc::Global;

/// A log of a service's turns and of the copies of its file, which are told to an outlet, if there is one.
#[derive(Drop)]
pub(crate) struct Lines {
    alloc: Global,
    outlet: Option<Outlet>,
    has_connections: bool,
    // The text of the last arrival, if it's of note and its turn wasn't told of yet. The error is want of memory for it.
    arrival: Option<Text>,
    failures: Failures,
}

// Whether a turn did nothing but accept or close a connection.
fn is_of_connection(turn: &Turn) -> bool {
    matches!(turn, Turn::Accepted { .. } | Turn::Closed { .. })
}

impl Lines {
    /// Lines for an outlet, with those of connections or without.
    pub(crate) fn new(alloc: Global, outlet: Option<Outlet>, has_connections: bool) -> Lines {
        Lines {
            alloc,
            outlet,
            has_connections,
            arrival: None,
            failures: Failures::NONE,
        }
    }

    pub(crate) fn into_outlet(self) -> Option<Outlet> {
        self.outlet
    }

    /// Whether anybody can read it.
    pub(crate) fn is_kept(&self) -> bool {
        self.outlet.is_some()
    }

    pub(crate) fn backed_up(&mut self, moment: Moment, backup: &Backup) {
        if let Some(outlet) = &mut self.outlet {
            let line = backup_line(self.alloc, outlet.format(), Some(moment), backup);
            outlet.write(self.alloc, Some(moment), line);
        }
    }
}

impl TurnLog for Lines {
    fn arrived(&mut self, what: What<'_>, answer: &Answer, account: &Account) {
        if let Some(outlet) = &self.outlet
            && is_of_note(what, answer, account)
        {
            let alloc = self.alloc;
            self.arrival = Some(match outlet.format() {
                LogFormat::Json => arrival_members(alloc, what, answer, account),
                LogFormat::Seconds | LogFormat::Utc => arrival_text(alloc, what, answer, account),
            });
        }
    }

    fn note(&mut self, moment: Moment, turn: &Turn) {
        if !self.has_connections && is_of_connection(turn) {
            return;
        }
        let Some(outlet) = &mut self.outlet else {
            return;
        };
        let (alloc, format) = (self.alloc, outlet.format());
        let line = match turn {
            Turn::Failed => self.failures.line(alloc, format, moment),
            _ => {
                let arrival = self.arrival.take().transpose();
                arrival.and_then(|arrival| {
                    let arrival = arrival.as_ref().map(|text| text.as_str());
                    turn_line(alloc, format, moment, turn, arrival)
                })
            }
        };
        if let Some(line) = line.transpose() {
            outlet.write(alloc, Some(moment), line);
        }
    }

    fn unstamped(&mut self) {
        if let Some(outlet) = &mut self.outlet {
            let line = unstamped_line(self.alloc, outlet.format());
            outlet.write(self.alloc, None, line);
        }
    }
}

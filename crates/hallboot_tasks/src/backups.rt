//! Copies of a hall's file that are made while it is served, between two turns.
use desk_lines::Backup;
use hallboot_files::{Joining, Keeping, copy};
use hallboot_words::BackupPlan;
use std::fs;
use std::time::Instant;

/// How many seconds a service is served at most before its first copy, so that one that is started often has one.
const FIRST: u64 = 60;

/// When the last copy was begun, or the service where there was none.
#[derive(Clone, Copy)]
pub(crate) struct LastBackup {
    pub(crate) at: Instant,
    pub(crate) is_first: bool,
    /// Whether the copy that was there before the service has later numbers than the hall, so that it is of another hall, or of a later
    /// one. No copy is made while it is there.
    pub(crate) is_behind: bool,
}

/// The copies of a service.
#[derive(Drop)]
pub(crate) struct Backups<'a, J> {
    pub(crate) plan: Option<&'a BackupPlan>,
    pub(crate) joining: &'a J,
    pub(crate) last: LastBackup,
}

impl<'a, J: Joining> Backups<'a, J> {
    // The plan, if it is time for a copy.
    fn due(&self, rt: &HostRuntime) -> Option<&'a BackupPlan> {
        let plan = self.plan?;
        let passed = self.last.at.elapsed(rt).ok()?;
        let wait = if self.last.is_first {
            plan.seconds.min(FIRST)
        } else {
            plan.seconds
        };
        (passed.as_secs() >= wait).then_some(plan)
    }

    /// Makes a copy of a file that is served, if it is time for one: what became of it.
    pub(crate) fn made(&mut self, rt: &HostRuntime, db: &str) -> Option<Backup> {
        let plan = self.due(rt)?;
        let begun = Instant::now(rt).ok()?;
        let keeping = Keeping {
            before: self.last.is_first,
            dated: plan.kept,
        };
        let path = plan.path.as_str();
        let is_behind = self.last.is_behind && fs::exists(rt, path).unwrap_or(true);
        self.last = LastBackup {
            at: begun,
            is_first: false,
            is_behind,
        };
        if is_behind {
            return Some(Backup::Refused);
        }
        let copied = copy(rt, self.joining, db, path, keeping);
        let milliseconds = match begun.elapsed(rt) {
            Ok(passed) => u64::try_from(passed.as_millis()).unwrap_or(u64::MAX),
            Err(_) => 0,
        };
        Some(copied.map_or(
            Backup::Failed,
            |octets| Backup::Made {
                octets,
                milliseconds,
            },
        ))
    }
}

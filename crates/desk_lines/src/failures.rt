//! Sockets that fail again and again, of which a log has a line a minute.
use crate::event_lines::event_line;
use hall_report::LogFormat;
use hall_types::Moment;
use std::alloc::{AllocError, Global};

/// How many seconds it is at least from one line to the next.
const PAUSE: u64 = 60;

/// How many turns failed since the log had a line of it.
#[derive(Clone, Copy)]
pub struct Failures {
    told: Option<Moment>,
    untold: u64,
}

// Whether a line is due at a moment. A clock that was set back brings one too.
fn is_due(told: Option<Moment>, moment: Moment) -> bool {
    match told {
        Some(told) => moment.get() < told.get() || moment.get() - told.get() >= PAUSE,
        None => true,
    }
}

impl Failures {
    pub const NONE: Failures = Failures {
        told: None,
        untold: 0,
    };

    /// The line of a turn that failed, with its line feed, if one is due: the moment, and how many failed since the last
    /// one, this one among them.
    pub fn line(
        &mut self,
        alloc: Global,
        format: LogFormat,
        moment: Moment,
    ) -> Result<Option<String>, AllocError> {
        let failed = self.untold.saturating_add(1);
        if !is_due(self.told, moment) {
            self.untold = failed;
            return Ok(None);
        }
        self.told = Some(moment);
        self.untold = 0;
        let words = if failed == 1 {
            String::from_str(alloc, "failed")?
        } else {
            format!(in alloc; "failed {failed} times")?
        };
        let line = event_line(
            alloc,
            format,
            Some(moment),
            "failed",
            Some(failed),
            words.as_str(),
        )?;
        Ok(Some(line))
    }
}

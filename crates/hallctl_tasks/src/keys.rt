//! The keys of commands. They are noted before the commands are sent, so that what was begun can be gone on with after the program was
//! stopped.
use crate::end::{TaskEnd, TaskFault};
use crate::sending::Sending;
use crate::session::Session;
use crate::surroundings::Surroundings;
use hall_types::RequestKey;
use hallctl_texts::{subject, version_of};
use std::alloc::{AllocError, Global};
use uuid::{Builder, Uuid};

// The key of these random octets, a UUID of version 4 (RFC 9562 section 5.4).
fn key_of(octets: &[u8; 32]) -> RequestKey {
    let (first, _) = octets.split_at(16);
    match first.first_chunk::<16>() {
        Some(first) => RequestKey::from(
            Builder::from_random_bytes(*first).into_uuid().into_bytes(),
        ),
        None => unreachable!(),
    }
}

/// A key as a command line has it.
pub(crate) fn key_text(alloc: Global, key: RequestKey) -> Result<String, AllocError> {
    Uuid::from_bytes(key.octets()).to_string(alloc)
}

impl Sending<'_> {
    /// The command with what has to be said to send it again: `machine 7: release, key KEY, version 12`.
    pub(crate) fn note(&self, alloc: Global) -> Result<String, AllocError> {
        let about = subject(alloc, self.command)?;
        let word = self.command.kind().word();
        let key = key_text(alloc, self.key)?;
        match version_of(self.command) {
            Some(version) => {
                let version = version.get();
                format!(in alloc; "{about}: {word}, key {key}, version {version}")
            }
            None => format!(in alloc; "{about}: {word}, key {key}"),
        }
    }
}

impl<S: Surroundings> Session<'_, S> {
    /// The key of a command: that which the line says, or one that no other command has.
    pub(crate) fn key(&mut self) -> Result<RequestKey, TaskFault> {
        if let Some(key) = self.line.key {
            return Ok(key);
        }
        let octets = self.surroundings.fresh().ok_or(TaskFault::Random)?;
        Ok(key_of(&octets))
    }

    // Adds a line to the file of keys, if there is one. Where it can't be written, that is reported.
    fn add_to_keys(&mut self, line: &str) -> Result<bool, AllocError> {
        let Some(path) = self.line.keys else {
            return Ok(true);
        };
        match self.surroundings.add_to_file(path, line) {
            Ok(()) => Ok(true),
            Err(fault) => {
                self.report(format_args!("{path}: {fault}"))?;
                Ok(false)
            }
        }
    }

    /// Notes a command that is to be sent: where somebody watches, and in the file of keys. Whether it could be written there.
    pub(crate) fn note(&mut self, note: &str) -> Result<bool, AllocError> {
        let line = format!(in self.alloc; "{note}\n")?;
        if self.surroundings.is_watched() {
            self.surroundings.eprint(line.as_str());
        }
        self.add_to_keys(line.as_str())
    }

    /// Notes how a command ended. Where that can't be written, the command isn't undone by it.
    pub(crate) fn note_end(&mut self, note: &str, end: TaskEnd) -> Result<(), AllocError> {
        let word = end.word();
        let line = format!(in self.alloc; "{note}: {word}\n")?;
        let _ = self.add_to_keys(line.as_str())?;
        Ok(())
    }
}

//! An operator is added, with a token that is made.
use crate::end::{Step, TaskEnd, TaskFault};
use crate::sending::Sending;
use crate::session::Session;
use crate::surroundings::Surroundings;
use hall_events::HallCommand;
use hall_types::Digest;
use hallctl_words::NewOperator;
use halls_file::FileFault;
use sha2::{Digest as _, Sha256};
use std::alloc::AllocError;

// The digits of a token.
const TOKEN_LEN: usize = 64;

// The digest of the token of a draft: its digits and a line feed.
fn digest_in(octets: &[u8]) -> Option<Digest> {
    let digits = octets.strip_suffix(b"\n".as_slice())?;
    if digits.len() == TOKEN_LEN && digits.iter().all(u8::is_ascii_hexdigit) {
        Some(Digest::from(Sha256::digest(digits)))
    } else {
        None
    }
}

impl<S: Surroundings> Session<'_, S> {
    // A token: 32 random octets in hexadecimal.
    fn new_token(&mut self) -> Step<String> {
        let octets = self.surroundings.fresh().ok_or(TaskFault::Random)?;
        Ok(hex::encode(self.alloc, octets)?)
    }

    // Makes a token, and writes it to its draft.
    fn new_draft(&mut self, draft: &str) -> Step<Digest> {
        let token = self.new_token()?;
        let digest = Digest::from(Sha256::digest(token.as_bytes()));
        let text = format!(in self.alloc; "{token}\n")?;
        drop(token);
        let made = self.surroundings.make_file(draft, text.as_bytes());
        drop(text);
        match made {
            Ok(()) => Ok(digest),
            Err(fault) => self.end_by_file(draft, fault),
        }
    }

    // The token that an earlier line left in its draft.
    fn old_draft(&mut self, draft: &str) -> Step<Digest> {
        let octets = match self.surroundings.octets_of(self.alloc, draft) {
            Ok(octets) => octets,
            Err(fault) => return self.end_by_file(draft, fault),
        };
        match digest_in(octets.as_slice()) {
            Some(digest) => Ok(digest),
            None => self.end_by_file(draft, "it has no token that hallctl made: remove it"),
        }
    }

    // Sends the command that adds an operator with this digest.
    fn send_new(&mut self, new: &NewOperator<'_>, digest: Digest) -> Step<TaskEnd> {
        let key = self.key()?;
        let command = HallCommand::AddOperator {
            operator: new.operator,
            role: new.role,
            digest,
        };
        let end = self.send(&Sending {
            key,
            command: &command,
            before: None,
            instead: "",
        });
        drop(command);
        end
    }

    // The operator has its token: the draft gets the name of its file.
    fn keep_draft(&mut self, draft: &str, path: &str) -> Result<(), AllocError> {
        if let Err(fault) = self.surroundings.rename_file(draft, path) {
            self.report(format_args!("the token stays in {draft}: {path}: {fault}"))?;
        }
        Ok(())
    }

    // Reports what the token of a draft is, where the operator wasn't added or that isn't known.
    fn report_draft(&mut self, draft: &str, is_new: bool, end: TaskEnd) -> Result<(), AllocError> {
        match end {
            TaskEnd::Refused if is_new => {
                self.report(format_args!("the token in {draft} is nobody's"))
            }
            TaskEnd::Refused => self.report(format_args!(
                "the token in {draft} is of an earlier line, and the operator's only if that was done"
            )),
            _ => self.report(format_args!(
                "the token waits in {draft}: the same line uses it again"
            )),
        }
    }

    // Adds the operator with the token of its draft, which becomes its file if that is done.
    fn add_with(&mut self, new: &NewOperator<'_>, draft: &str) -> Step<TaskEnd> {
        let is_new = !self.surroundings.has_file(draft);
        let digest = if is_new {
            self.new_draft(draft)?
        } else {
            self.old_draft(draft)?
        };
        let end = self.send_new(new, digest)?;
        if end == TaskEnd::Done {
            self.keep_draft(draft, new.file)?;
        } else {
            self.report_draft(draft, is_new, end)?;
        }
        Ok(end)
    }

    /// Makes a token, writes it to a draft beside its file, adds the operator with its digest, and gives the draft the name of the file.
    /// Nothing is sent where there is such a file, or the draft can't be made. A draft that an earlier line left is used again.
    pub(crate) fn add_operator(&mut self, new: &NewOperator<'_>) -> Step<TaskEnd> {
        let file = new.file;
        if self.surroundings.has_file(file) {
            return self.end_by_file(file, FileFault::Exists);
        }
        let draft = format!(in self.alloc; "{file}.new")?;
        self.add_with(new, draft.as_str())
    }
}

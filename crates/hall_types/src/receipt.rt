//! Receipts of commands.
ghost use Rattle.std.specs.Prelude.{◌≡◌, IfOk};

use crate::name::Name;
use crate::request_key::RequestKey;
use crate::text::Text;
use std::alloc::{AllocError, Global};

/// The record of an accepted command, which is kept for good, so that a repeated request is answered and not
/// carried out again.
#[derive(Drop)]
pub struct Receipt {
    pub operator: Name,
    pub key: RequestKey,
    /// The command's text, compact JSON.
    pub command: Text,
    /// The answer's HTTP status.
    pub status: u16,
    /// The answer's body.
    pub body: Text,
}

impl Receipt {
    /// An equal receipt.
    pub fn copy(&self, alloc: Global) -> Result<Receipt, AllocError>
        ensures { IfOk result (λ copy. copy ≡ self.now) }
    {
        let command = self.command.copy(alloc)?;
        let body = self.body.copy(alloc)?;
        Ok(Receipt {
            operator: self.operator,
            key: self.key,
            command,
            status: self.status,
            body,
        })
    }
}

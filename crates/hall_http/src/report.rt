//! Reports of boots, and answers to orders.
ghost use Rattle.std.specs.Prelude.{◌≡◌, IfOk};
ghost use Rattle.serde_json.specs.View.{view};
ghost use Rattle.hall_http.specs.Command as from_json;

use crate::body::value_of;
use crate::member::{outcome_at, progress_at};
use crate::shape::fits;
use hall_types::{Outcome, Progress};
use serde_json::Value;
use std::alloc::{AllocError, Global};

fn is_sole(json: &Value, name: &str) -> bool
    ensures { result ≡ from_json.is_sole name.now (view json.now) }
{
    fits(json, &[name], &[], &[])
}

/// The progress that a report's body says in its one member `stage`; nothing where the body is anything
/// else. The error is want of memory.
#[tactic(auto, unfolding(crate::specs::Command::progress_in))]
pub fn progress_in(alloc: Global, body: &[u8]) -> Result<Option<Progress>, AllocError>
    ensures { IfOk result (λ progress. progress ≡ from_json.progress_in body.now) }
{
    match value_of(alloc, body)? {
        Some(json) if is_sole(&json, "stage") => Ok(progress_at(&json)),
        _ => Ok(None),
    }
}

/// The outcome that the body of an order's answer says in its one member `outcome`; nothing where the body
/// is anything else. The error is want of memory.
#[tactic(auto, unfolding(crate::specs::Command::outcome_in))]
pub fn outcome_in(alloc: Global, body: &[u8]) -> Result<Option<Outcome>, AllocError>
    ensures { IfOk result (λ outcome. outcome ≡ from_json.outcome_in body.now) }
{
    match value_of(alloc, body)? {
        Some(json) if is_sole(&json, "outcome") => Ok(outcome_at(&json)),
        _ => Ok(None),
    }
}

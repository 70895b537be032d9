//! Texts of visible characters: the desk's name and port, and bearer tokens.
ghost use Rattle.std.specs.Prelude.{◌≡◌, ◌↔◌, IfOk, IsErrOf};
ghost use Rattle.hallctl_requests.specs.Request.{IsVisibleText};

use hall_http::is_visible_text;
use std::alloc::{AllocError, Global};
use std::marker::Model;
use thiserror::Error;

/// A text of 1 to `MAX` visible characters of ASCII. Contracts see its octets.
#[derive(Drop)]
pub struct CheckedText<const MAX: usize> {
    text: String,
}

/// The desk's name and port, as the Host field has it (RFC 9110 section 7.2).
pub type Authority = CheckedText<255>;

/// A bearer token (RFC 6750 section 2.1).
pub type BearerToken = CheckedText<128>;

impl<const MAX: usize> Model for CheckedText<MAX> {
    ghost use Rattle.std.specs.Prelude.{List, ℕ, string_bytes};
    ghost use Rattle.hallctl_requests.specs.Request.{IsVisibleText};

    ghost Value = { List ℕ };

    ghost view = { λ checked. string_bytes checked.text };

    ghost invariant = { λ checked. IsVisibleText MAX (string_bytes checked.text) };
}

/// Why a text isn't taken.
#[derive(Clone, Copy, Debug, PartialEq, Eq, Error)]
pub enum TextFault {
    #[error("it has other than visible characters of ASCII, none, or too many")]
    BadText = 1,
    #[error("memory is wanting")]
    Memory = 2,
}

impl<const MAX: usize> CheckedText<MAX> {
    /// The checked text with these characters. They are tested before memory is taken.
    ///
    /// # Errors
    ///
    /// `BadText` if and only if they are none, too many, or not all visible, and `Memory`.
    pub fn new(alloc: Global, text: &str) -> Result<CheckedText<MAX>, TextFault>
        ensures text { IfOk result (λ checked. checked ≡ text.now) }
        ensures bad { IsErrOf result TextFault.BadText ↔ ¬ (IsVisibleText MAX text.now) }
    {
        if !is_visible_text(text.as_bytes(), MAX) {
            return Err(TextFault::BadText);
        }
        match String::from_str(alloc, text) {
            Ok(text) => Ok(CheckedText { text }),
            Err(AllocError) => Err(TextFault::Memory),
        }
    }

    /// Its characters.
    pub fn text(&self) -> &str
        ensures text { result.now ≡ self.now }
        ensures visible { IsVisibleText MAX self.now }
    {
        self.text.as_str()
    }
}

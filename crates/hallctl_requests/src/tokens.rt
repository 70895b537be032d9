//! Operators' tokens, as their files have them.
use crate::checked_text::{BearerToken, TextFault};
use std::alloc::Global;

/// The token that a file has as its first line, by the file's octets.
pub fn token_of(alloc: Global, octets: &[u8]) -> Result<BearerToken, TextFault> {
    let text = std::str::from_utf8(octets).map_err(|_| TextFault::BadText)?;
    let (line, _) = text.split_once('\n').unwrap_or((text, ""));
    BearerToken::new(alloc, line)
}

//! The values of the options with one code, joined.
ghost use Rattle.std.specs.{Prelude.{◌≡◌, ◌++◌, [], None, Some, OnOk, OnErr, IfOk, option_map, option_copied, unwrap_or}, Cow.cow_slice_items};

use std::alloc::{AllocError, Global};
use std::borrow::CowSlice;
use std::marker::Model;

/// The values of the options with one code, joined in order (RFC 3396 section 5). One value is borrowed
/// from the octets that were read; memory is taken only for a second one. Contracts see the joined
/// octets, or `None` where no value was joined.
#[derive(Drop)]
pub struct JoinedValue<'a> {
    octets: Option<CowSlice<'a, u8>>,
}

impl<'a> Model for JoinedValue<'a> {
    ghost use Rattle.std.specs.{Prelude.{List, ℕ, Option, option_map}, Cow.cow_slice_items};

    ghost Value = { Option (List ℕ) };

    ghost view = { λ joined. option_map cow_slice_items joined.octets };
}

// Most codes have one value.
#[cold]
fn joined(alloc: Global, octets: CowSlice<'_, u8>, value: &[u8]) -> Result<Vec<u8>, AllocError>
    ensures { IfOk result (λ joined. joined.items ≡ cow_slice_items octets.entry ++ value.now) }
{
    let mut octets = octets.into_owned(alloc)?;
    octets.extend_from_slice(value)?;
    Ok(octets)
}

impl<'a> JoinedValue<'a> {
    /// No value yet.
    pub fn new() -> JoinedValue<'a>
        ensures { result ≡ None }
    {
        JoinedValue { octets: None }
    }

    /// Joins one more value to the end. The only error is that memory ran out, and after it there is no
    /// value.
    pub fn push(&mut self, alloc: Global, value: &'a [u8]) -> Result<(), AllocError>
        ensures ok { OnOk result (self.new ≡ Some (unwrap_or self.old [] ++ value.now)) }
        ensures err { OnErr result (self.new ≡ None) }
    {
        let octets = match self.octets.take() {
            None => CowSlice::Borrowed(value),
            Some(octets) => CowSlice::Owned(joined(alloc, octets, value)?),
        };
        self.octets = Some(octets);
        Ok(())
    }

    /// The joined octets, or `None` where no value was joined.
    pub fn as_slice(&self) -> Option<&[u8]>
        ensures { option_copied result ≡ self.now }
    {
        Some(self.octets.as_ref()?.as_slice())
    }

    /// The joined octets in memory of their own, or `None` where no value was joined. The only error is
    /// that memory ran out.
    pub fn into_vec(self, alloc: Global) -> Result<Option<Vec<u8>>, AllocError>
        ensures { IfOk result (λ octets. option_map (λ octets. octets.items) octets ≡ self.entry) }
    {
        match self.octets {
            Some(octets) => Ok(Some(octets.into_owned(alloc)?)),
            None => Ok(None),
        }
    }
}

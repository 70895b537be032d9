//! Requests as far as they came.
ghost use Rattle.std.specs.Prelude.{◌≡◌, ◌≤◌, ◌+◌, ◌++◌, [], length, IfOk, IsTrue};
ghost use Rattle.hall_http.specs.Decided.{Ends, IsDecided};

use crate::known::{KnownHead, is_decided, look};
use crate::request::Request;
use std::alloc::{AllocError, Global};
use std::marker::Model;

/// A request as far as it came. Contracts see its octets. Its head is read once (RFC 9112 sections 2 to 5), as
/// soon as it is complete.
#[derive(Drop)]
pub struct PartialRequest {
    octets: Vec<u8>,
    // Nothing is known while more octets may complete the head.
    known: Option<KnownHead>,
}

impl Model for PartialRequest {
    ghost use Rattle.std.specs.Prelude.{List, ℕ};
    ghost use Rattle.hall_http.specs.Reading.{IsKnownIfAny};

    ghost Value = { List ℕ };

    ghost view = { λ request. request.octets.items };

    ghost invariant = { λ request. IsKnownIfAny request.octets.items request.known };
}

impl PartialRequest {
    /// Nothing came yet.
    pub fn new(alloc: Global) -> PartialRequest
        ensures { result ≡ [] }
    {
        PartialRequest {
            octets: Vec::new(alloc),
            known: None,
        }
    }

    /// The octets that came.
    pub fn octets(&self) -> &[u8]
        ensures { result.now ≡ self.now }
    {
        self.octets.as_slice()
    }

    /// More octets came. Says whether no further octets can change what the request asks for, so that a
    /// connection need not be read on. The error is want of memory; then the octets may be there or not.
    pub fn add(&mut self, alloc: Global, more: &[u8]) -> Result<bool, AllocError>
        ensures added { IfOk result (λ _. self.new ≡ self.old ++ more.now) }
        ensures decided { IfOk result (λ decided. IsTrue decided → IsDecided self.new) }
        ensures ends { IfOk result (λ decided. Ends self.new → IsTrue decided) }
        ensures few { length self.new ≤ length self.old + length more.now }
    {
        self.octets.extend_from_slice(more)?;
        if let Some(known) = &self.known {
            return Ok(is_decided(known, self.octets.as_slice()));
        }
        let Some(known) = look(alloc, self.octets.as_slice())? else {
            return Ok(false);
        };
        let decided = is_decided(&known, self.octets.as_slice());
        self.known = Some(known);
        Ok(decided)
    }

    /// The request of these octets, with nothing after them. The error is want of memory.
    pub fn finish(self, alloc: Global) -> Result<Request, AllocError>
        ensures { IfOk result (λ request. request ≡ self) }
    {
        Request::new(alloc, self.octets, self.known)
    }
}

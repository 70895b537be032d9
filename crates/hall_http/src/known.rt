//! What is known of a request's head, whatever octets follow.
ghost use Rattle.std.specs.Prelude.{◌≡◌, ◌↔◌, length, map, All, IfOk, IsTrue};
ghost use Rattle.hall_http.specs.{Prelude.{IsHeaderWithin, header_bytes}, Decided.{Ends, IsDecided}, Demand.demand_of, Reading.{IsFound, IsKnown, IsReadyFor}};

use crate::demand::{Demand, demand_of};
use crate::fault::HttpFault;
use crate::head::{Look, MAX_FIELDS, MAX_HEAD_LEN, look_for_head};
use crate::slices::{prefix, suffix};
use httparse::spans::{EMPTY_HEADER_SPAN, HeaderSpan};
use std::alloc::{AllocError, Global};

/// What is known of a request's head, whatever octets follow.
#[derive(Clone, Copy)]
pub(crate) enum KnownHead {
    /// There will be none.
    Never,
    /// It has so many octets, and asks for this.
    Found {
        len: usize,
        demand: Result<Demand, HttpFault>,
    },
}

// What a head's parts ask for, or why it is refused, and never for want of memory, which is the error.
fn exact_demand(
    alloc: Global,
    method: &[u8],
    target: &str,
    front: &[u8],
    headers: &[HeaderSpan],
) -> Result<Result<Demand, HttpFault>, AllocError>
    requires { All (IsHeaderWithin (length front.now)) headers.now }
    ensures { IfOk result (λ demand. demand ≡ demand_of method.now target.now (map (header_bytes front.now) headers.now)) }
{
    match demand_of(alloc, method, target, front, headers) {
        Ok(demand) => Ok(Ok(demand)),
        Err(HttpFault::Memory) => Err(AllocError),
        Err(fault) => Ok(Err(fault)),
    }
}

/// Looks for a head at the front of the octets: what is known of it, or nothing while more octets may complete
/// one. The error is want of memory, where there is a head.
pub(crate) fn look(alloc: Global, octets: &[u8]) -> Result<Option<KnownHead>, AllocError>
    ensures { IsFound octets.now result }
{
    let front = prefix(octets, MAX_HEAD_LEN);
    let mut room = [EMPTY_HEADER_SPAN; MAX_FIELDS];
    match look_for_head(front, &mut room) {
        Look::Open => {
            if MAX_HEAD_LEN <= octets.len() {
                Ok(Some(KnownHead::Never))
            } else {
                Ok(None)
            }
        }
        Look::Never => Ok(Some(KnownHead::Never)),
        Look::Head(spans) => {
            let Ok(target) = std::str::from_utf8(spans.path.of(front)) else {
                unreachable!()
            };
            let method = spans.method.of(front);
            let headers = &room[..spans.headers];
            let demand = exact_demand(alloc, method, target, front, headers)?;
            let len = spans.len;
            Ok(Some(KnownHead::Found { len, demand }))
        }
    }
}

// Whether the head is refused, or all of the body follows it.
fn is_ready(demand: &Result<Demand, HttpFault>, after: &[u8]) -> bool
    ensures { IsTrue result ↔ IsReadyFor demand.now after.now }
{
    match demand {
        Ok(demand) => demand.body_size() <= after.len() as u64,
        Err(_) => true,
    }
}

/// Whether no further octets can change what the request asks for.
pub(crate) fn is_decided(known: &KnownHead, octets: &[u8]) -> bool
    requires { IsKnown octets.now known.now }
    ensures decided { IsTrue result → IsDecided octets.now }
    ensures ends { Ends octets.now → IsTrue result }
{
    match known {
        KnownHead::Never => true,
        KnownHead::Found { len, demand } => is_ready(demand, suffix(octets, *len)),
    }
}

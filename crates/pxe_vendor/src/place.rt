//! The addresses of the services that boot machines.
ghost use Rattle.std.specs.{Prelude.{◌≡◌, false, IsOk, IfOk, IsErrOf, IsTrue, ◌↔◌, string_bytes}, List.list_all};
ghost use Rattle.pxe_vendor.specs.Place.{Site, is_host, is_host_octet};

use std::alloc::{AllocError, Global};
use std::marker::Model;
use thiserror::Error;

/// The IP address of the boot server, the IP address of the next server, which has the boot files (siaddr
/// in RFC 2131), and the host of the scripts.
#[derive(Drop)]
pub struct Place {
    server: [u8; 4],
    next: [u8; 4],
    host: String,
}

impl Model for Place {
    ghost use Rattle.std.specs.Prelude.{IsTrue, string_bytes};
    ghost use Rattle.pxe_vendor.specs.Place.{Site, is_host};

    ghost Value = { Site };

    ghost view = { λ p. record { server = p.server; next = p.next; host = string_bytes p.host } };

    ghost invariant = { λ p. IsTrue (is_host (string_bytes p.host)) };
}

/// Why a place can't be made.
#[derive(Clone, Copy, Debug, PartialEq, Eq, Error)]
pub enum PlaceFault {
    /// A host has 1 to 64 characters: letters, digits, `-`, `.` and `:`. The first is a letter or a digit.
    #[error("not a host")]
    BadHost = 1,
    #[error("out of memory")]
    Memory = 2,
}

// The maximum number of characters in a host.
const MAX_HOST_LEN: usize = 64;

fn are_host_octets(octets: &[u8]) -> bool
    ensures { result ≡ list_all is_host_octet octets.now }
{
    octets.iter().all(|c| c.is_ascii_alphanumeric() || *c == b'-' || *c == b'.' || *c == b':')
}

#[tactic(auto, unfolding(crate::specs::Place::is_host))]
fn is_good(host: &[u8]) -> bool
    ensures { result ≡ is_host host.now }
{
    let Some((first, others)) = host.split_first() else {
        return false;
    };
    first.is_ascii_alphanumeric() && host.len() <= MAX_HOST_LEN && are_host_octets(others)
}

impl Place {
    /// A place with these IP addresses and this host. `BadHost` comes before `Memory`.
    pub fn new(
        alloc: Global,
        server: [u8; 4],
        next: [u8; 4],
        host: &str,
    ) -> Result<Place, PlaceFault>
        ensures place { IfOk result (λ place. place ≡ record { server = server; next = next; host = host.now }) }
        ensures host { IsOk result → IsTrue (is_host host.now) }
        ensures bad_host { IsErrOf result PlaceFault.BadHost ↔ (is_host host.now ≡ false) }
    {
        if !is_good(host.as_bytes()) {
            return Err(PlaceFault::BadHost);
        }
        match String::from_str(alloc, host) {
            Ok(host) => Ok(Place { server, next, host }),
            Err(AllocError) => Err(PlaceFault::Memory),
        }
    }

    /// The boot server's IP address.
    pub fn server(&self) -> [u8; 4]
        ensures { result ≡ self.now.server }
    {
        self.server
    }

    /// The next server's IP address.
    pub fn next(&self) -> [u8; 4]
        ensures { result ≡ self.now.next }
    {
        self.next
    }

    /// The host of the scripts.
    pub fn host(&self) -> &str
        ensures text { result.now ≡ self.now.host }
        ensures host { IsTrue (is_host self.now.host) }
    {
        self.host.as_str()
    }
}

//! The addresses of a desk, as the system's resolver gave them. Moments and times are milliseconds.
use crate::times::has_passed;
use std::alloc::Global;
use std::net::{SocketAddr, ToSocketAddrs};

/// How long it is at least from one question to the resolver about a desk to the next.
const AGAIN: u64 = 30_000;

/// The maximum of a desk's addresses.
const MAX_ADDRESSES: usize = 8;

/// The addresses of a desk. They are kept where the resolver gives no others.
#[derive(Drop)]
pub(crate) struct Addresses {
    found: Vec<SocketAddr>,
    // The place of the one that is tried first.
    first: usize,
    // When the resolver was asked last.
    asked: Option<u64>,
    // The desk has answered at none of them since.
    is_old: bool,
}

impl Addresses {
    /// None yet.
    pub(crate) fn new(alloc: Global) -> Addresses {
        Addresses {
            found: Vec::new(alloc),
            first: 0,
            asked: None,
            is_old: true,
        }
    }

    /// Whether the resolver is to be asked before the desk: after a failure, and not too soon after it was asked last.
    pub(crate) fn are_to_be_found(&self, now: u64) -> bool {
        match self.asked {
            Some(asked) => self.is_old && has_passed(now, asked, AGAIN),
            None => self.is_old,
        }
    }

    /// Asks the resolver, which is waited for unless the host is an address.
    pub(crate) fn find(&mut self, rt: &HostRuntime, host: &str, port: u16, now: u64) {
        self.asked = Some(now);
        let Ok(found) = (host, port).to_socket_addrs(rt) else {
            return;
        };
        self.found.clear();
        self.first = 0;
        for address in found.take(MAX_ADDRESSES) {
            if self.found.push(address).is_err() {
                return;
            }
        }
        self.is_old = false;
    }

    /// How many there are.
    pub(crate) fn count(&self) -> usize {
        self.found.len()
    }

    /// The one that is tried after so many others.
    pub(crate) fn after(&self, tried: usize) -> Option<SocketAddr> {
        let count = self.found.len().max(1);
        let place = self.first.saturating_add(tried) % count;
        self.found.get(place).copied()
    }

    /// The desk has answered at the one that was tried after so many others, which is the first one from now on.
    pub(crate) fn answered(&mut self, tried: usize) {
        let count = self.found.len().max(1);
        self.first = self.first.saturating_add(tried) % count;
    }

    /// The desk has answered at none.
    pub(crate) fn failed(&mut self) {
        self.is_old = true;
    }
}

//! What it needs to watch a hall.
use crate::addresses::Addresses;
use hall_events::HallCommand;
use hallctl_requests::{Ask, BearerToken, DeskAddress, request};
use std::alloc::{AllocError, Global};

/// What it needs to watch a hall.
#[derive(Drop)]
pub(crate) struct Watch {
    host: String,
    port: u16,
    /// The octets by which its desk is asked for its machines.
    pub(crate) request: Vec<u8>,
    pub(crate) addresses: Addresses,
    /// The last time that it was asked, its desk gave no list.
    pub(crate) is_down: bool,
}

// What each desk is asked. No command is given: where an `Ask` is made, the checker wants to see the type of what it may hold.
fn question(_command: Option<&HallCommand>) -> Ask<'_> {
    Ask::Machines
}

/// Whether the desk at this place is down.
pub(crate) fn is_down(watches: &[Watch], place: usize) -> bool {
    match watches.get(place) {
        Some(watch) => watch.is_down,
        None => false,
    }
}

impl Watch {
    /// That of the hall of a desk, which is asked in the name of a token. The token is sent to this desk only.
    pub(crate) fn new(
        alloc: Global,
        address: DeskAddress,
        token: &BearerToken,
    ) -> Result<Watch, AllocError> {
        let Ok(request) = request(alloc, &address.authority, token, &question(None)) else {
            return Err(AllocError);
        };
        Ok(Watch {
            host: address.host,
            port: address.port,
            request,
            addresses: Addresses::new(alloc),
            is_down: false,
        })
    }

    /// Asks the resolver for the desk's addresses.
    pub(crate) fn find(&mut self, rt: &HostRuntime, now: u64) {
        self.addresses.find(rt, self.host.as_str(), self.port, now);
    }
}

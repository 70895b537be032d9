//! Requests that came whole, with the events that they make.
ghost use Rattle.std.specs.Prelude.{◌≡◌, IfOk};
ghost use Rattle.hall_http.specs.{Request.IsEvent, Reading.IsKnownIfAny};

use crate::event::event_of;
use crate::fault::HttpFault;
use crate::known::KnownHead;
use hall_events::Event;
use pxe_vendor::Octets;
use std::alloc::{AllocError, Global};
use std::marker::Model;
use std::rc::Rc;

// The octets, with the event that they make or the first fault.
#[derive(Drop)]
struct Read {
    octets: Vec<u8>,
    event: Result<Event, HttpFault>,
}

/// A request, and the event that its octets make or the first fault, which were made once and are shared by its
/// copies. Contracts see its octets.
#[derive(Drop)]
pub struct Request {
    read: Rc<Read>,
}

impl Model for Request {
    ghost use Rattle.std.specs.{Prelude.{List, ℕ}, Rc.rc_value};
    ghost use Rattle.hall_http.specs.Request.{IsEvent};

    ghost Value = { List ℕ };

    ghost view = { λ request. (rc_value request.read).octets.items };

    ghost invariant = { λ request. IsEvent (rc_value request.read).octets.items (rc_value request.read).event };
}

impl Request {
    /// The request of these octets, by what is known of its head.
    pub(crate) fn new(
        alloc: Global,
        octets: Vec<u8>,
        known: Option<KnownHead>,
    ) -> Result<Request, AllocError>
        requires { IsKnownIfAny octets.items known }
        ensures { IfOk result (λ request. request ≡ octets.items) }
    {
        let event = event_of(alloc, &known, octets.as_slice());
        let read = Rc::new(alloc, Read { octets, event })?;
        Ok(Request { read })
    }

    /// Reads octets as one request. The error is want of memory.
    pub fn read(alloc: Global, octets: Octets) -> Result<Request, AllocError>
        ensures { IfOk result (λ request. request ≡ octets) }
    {
        Request::new(alloc, octets.into_vec(), None)
    }

    /// The octets.
    pub fn octets(&self) -> &[u8]
        ensures { result.now ≡ self.now }
    {
        self.read.as_ref().octets.as_slice()
    }

    /// The event that the octets make.
    ///
    /// # Errors
    ///
    /// The first cause of this order: `BadRequest` if the first 8,192 octets hold no complete head of HTTP/1.0 or
    /// HTTP/1.1 (RFC 9112) with at most 64 fields; `NoRoute` and `WrongMethod`; `BadRequest` for a bad number,
    /// address or token in the target, and then, for a POST, for a Transfer-Encoding, a second Content-Length or
    /// a bad one; `NeedLength`; `TooLarge` for a body of more than 16,384 octets; `BadRequest` for a body that is
    /// cut, or isn't the JSON object that is asked for. `Memory` may come in the place of each.
    pub fn asked(&self) -> Result<Asked, HttpFault>
        ensures { IsEvent self.now result }
    {
        match &self.read.as_ref().event {
            Ok(_) => match self.read.clone() {
                Ok(read) => Ok(Asked { read }),
                Err(AllocError) => Err(HttpFault::Memory),
            },
            Err(fault) => Err(*fault),
        }
    }

    /// The same request once more. The error is want of memory.
    pub fn share(&self) -> Result<Request, AllocError>
        ensures { IfOk result (λ request. request ≡ self.now) }
    {
        let read = self.read.clone()?;
        Ok(Request { read })
    }
}

/// The event that a request makes, shared with the request. Contracts see the event.
#[derive(Drop)]
pub struct Asked {
    read: Rc<Read>,
}

impl Model for Asked {
    ghost use Rattle.std.specs.Rc.{rc_value};
    ghost use Rattle.hall_http.specs.{Prelude.Event, Reading.{HasEvent, event_in}};

    ghost Value = { Event };

    ghost view = { λ asked. event_in (rc_value asked.read).event };

    ghost invariant = { λ asked. HasEvent (rc_value asked.read).event };
}

impl Asked {
    /// The event.
    pub fn event(&self) -> &Event
        ensures { result.now ≡ self.now }
    {
        match &self.read.as_ref().event {
            Ok(event) => event,
            Err(_) => unreachable!(),
        }
    }
}

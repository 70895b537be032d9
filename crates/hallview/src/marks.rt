//! Which seats' sockets may have something. The system tells it once, when it changes, so it is noted until a call finds nothing.
use crate::seats::SEATS;
use mio::event::Events;
use std::alloc::{AllocError, Global};

/// A mark for each seat.
#[derive(Drop)]
pub(crate) struct Marks {
    marked: Vec<bool>,
}

impl Marks {
    /// No mark.
    pub(crate) fn new(alloc: Global) -> Result<Marks, AllocError> {
        Ok(Marks {
            marked: Vec::from_elem(alloc, false, SEATS)?,
        })
    }

    // Sets a seat's mark, or takes it away.
    fn set(&mut self, seat: usize, is_marked: bool) {
        if let Some(mark) = self.marked.get_mut(seat) {
            *mark = is_marked;
        }
    }

    /// Notes that a seat's socket may have something.
    pub(crate) fn mark(&mut self, seat: usize) {
        self.set(seat, true);
    }

    /// Notes that it has nothing.
    pub(crate) fn clear(&mut self, seat: usize) {
        self.set(seat, false);
    }

    pub(crate) fn is_marked(&self, seat: usize) -> bool {
        matches!(self.marked.get(seat), Some(true))
    }

    /// Whether any socket may have something.
    pub(crate) fn has_any(&self) -> bool {
        self.marked.contains(&true)
    }

    /// Marks the seats of which the events are.
    pub(crate) fn note(&mut self, events: &Events) {
        for event in events {
            self.mark(event.token().0);
        }
    }
}

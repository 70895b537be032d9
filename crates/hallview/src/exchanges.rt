//! The slots of exchanges with desks. Moments and times are milliseconds.
use crate::exchange::{Exchange, PIECE, Progress};
use crate::seats::MAX_EXCHANGES;
use crate::watch::{Watch, is_down};
use std::alloc::{AllocError, Global};

/// A slot for each exchange that there may be.
#[derive(Drop)]
pub(crate) struct Exchanges {
    held: Vec<Option<Exchange>>,
    // What was read last.
    buffer: Vec<u8>,
}

impl Exchanges {
    /// Slots all of which are free.
    pub(crate) fn new(alloc: Global) -> Result<Exchanges, AllocError> {
        let mut held = Vec::with_capacity(alloc, MAX_EXCHANGES)?;
        for _ in 0..MAX_EXCHANGES {
            held.push(None)?;
        }
        Ok(Exchanges {
            held,
            buffer: Vec::from_elem(alloc, 0u8, PIECE)?,
        })
    }

    pub(crate) fn is_free(&self, slot: usize) -> bool {
        matches!(self.held.get(slot), Some(None))
    }

    /// Puts an exchange into a slot.
    pub(crate) fn set(&mut self, slot: usize, exchange: Exchange) {
        if let Some(held) = self.held.get_mut(slot) {
            *held = Some(exchange);
        }
    }

    /// The exchange of a slot, which is free then.
    pub(crate) fn take(&mut self, slot: usize) -> Option<Exchange> {
        self.held.get_mut(slot)?.take()
    }

    /// How many exchanges are with desks that are down.
    pub(crate) fn count_down(&self, watches: &[Watch]) -> usize {
        let mut count: usize = 0;
        for held in &self.held {
            if let Some(exchange) = held {
                if is_down(watches, exchange.hall) {
                    count = count.saturating_add(1);
                }
            }
        }
        count
    }

    /// Takes a step of the exchange in a slot.
    pub(crate) fn step(&mut self, slot: usize, watches: &[Watch], now: u64) -> Progress {
        let Some(Some(exchange)) = self.held.get_mut(slot) else {
            return Progress::Waits;
        };
        match watches.get(exchange.hall) {
            Some(watch) => {
                exchange.step(watch.request.as_slice(), self.buffer.as_mut_slice(), now)
            }
            None => Progress::Waits,
        }
    }

    /// What becomes of the exchange in a slot if it has taken too long.
    pub(crate) fn late_end(&self, slot: usize, now: u64) -> Option<Progress> {
        match self.held.get(slot) {
            Some(Some(exchange)) => exchange.late_end(now),
            _ => None,
        }
    }

    /// The time until one has taken too long, and at most this time; and whether a slot is free.
    pub(crate) fn left(&self, now: u64, most: u64) -> (u64, bool) {
        let mut least = most;
        let mut has_free = false;
        for held in &self.held {
            match held {
                Some(exchange) => least = least.min(exchange.left(now)),
                None => has_free = true,
            }
        }
        (least, has_free)
    }
}

//! A reader and a writer that fail where they are told to.
use std::io::{Error, ErrorKind, Read, Result as IoResult, Write};

/// A reader of so many octets a call at most, which fails at a call if it is said which, the first being 1.
#[derive(Drop)]
pub struct Slow<'a> {
    rest: &'a [u8],
    step: usize,
    calls: u64,
    fails_at: Option<u64>,
}

impl<'a> Slow<'a> {
    pub fn new(octets: &'a [u8], step: usize, fails_at: Option<u64>) -> Slow<'a> {
        Slow {
            rest: octets,
            step,
            calls: 0,
            fails_at,
        }
    }
}

impl<'a> Read for Slow<'a> {
    fn read(&mut self, buf: &mut [u8]) -> IoResult<usize> {
        self.calls = self.calls.saturating_add(1);
        if self.fails_at == Some(self.calls) {
            return Err(Error::from(ErrorKind::Other));
        }
        let count = self.rest.len().min(self.step).min(buf.len());
        let (taken, rest) = self.rest.split_at(count);
        buf.split_at_mut(count).0.copy_from_slice(taken);
        self.rest = rest;
        Ok(count)
    }
}

/// A writer that takes so many octets, and then fails or takes none. It can't be flushed.
#[derive(Drop)]
pub struct Short {
    pub taken: Vec<u8>,
    room: usize,
    takes_none: bool,
}

impl Short {
    /// One that fails then.
    pub fn new(taken: Vec<u8>, room: usize) -> Short {
        Short {
            taken,
            room,
            takes_none: false,
        }
    }

    /// One that takes none then.
    pub fn full(taken: Vec<u8>, room: usize) -> Short {
        Short {
            taken,
            room,
            takes_none: true,
        }
    }
}

impl Write for Short {
    fn write(&mut self, octets: &[u8]) -> IoResult<usize> {
        let count = octets.len().min(self.room);
        if count == 0 && !octets.is_empty() && !self.takes_none {
            return Err(Error::from(ErrorKind::Other));
        }
        self.taken.extend_from_slice(octets.split_at(count).0)?;
        self.room -= count;
        Ok(count)
    }

    fn flush(&mut self) -> IoResult<()> {
        Err(Error::from(ErrorKind::Other))
    }
}

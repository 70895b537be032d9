//! What an exchange with the desk gives.
ghost use Rattle.std.specs.Prelude.{◌≡◌, ◌≤◌, drop, length};

use crate::dial::Why;
use hallctl_texts::{ListedMachine, listed, value_of};
use std::alloc::{AllocError, Global};
use std::marker::Model;

/// A whole answer. Contracts see its status and its body.
#[derive(Drop)]
pub struct Answer {
    status: u16,
    octets: Vec<u8>,
    // Where the body begins among the octets.
    start: usize,
}

impl Model for Answer {
    ghost use Rattle.std.specs.Prelude.{◌≤◌, drop, length};
    ghost use Rattle.hallctl_tasks.specs.Hearing.{Hearing};

    ghost Value = { Hearing };

    ghost view = { λ a. record { status = a.status; body = drop a.start a.octets.items } };

    ghost invariant = { λ a. a.start ≤ length a.octets.items };
}

impl Answer {
    /// An answer with this status, whose body is the octets from the start on.
    pub(crate) fn new(status: u16, octets: Vec<u8>, start: usize) -> Answer
        requires { start ≤ length octets.items }
        ensures status { result.status ≡ status }
        ensures body { result.body ≡ drop start octets.items }
    {
        Answer {
            status,
            octets,
            start,
        }
    }

    pub fn status(&self) -> u16
        ensures { result ≡ self.now.status }
    {
        self.status
    }

    /// The octets of the body.
    pub fn body(&self) -> &[u8]
        ensures { result.now ≡ self.now.body }
    {
        &self.octets.as_slice()[self.start..]
    }

    /// The body as it came, if it is a text.
    pub(crate) fn text(&self) -> Option<&str> {
        std::str::from_utf8(self.body()).ok()
    }

    /// The machine that it lists, if it does.
    pub(crate) fn machine(&self, alloc: Global) -> Result<Option<ListedMachine>, AllocError> {
        match value_of(alloc, self.body())? {
            Some(value) => Ok(listed(&value).ok()),
            None => Ok(None),
        }
    }

    /// What it is where it isn't one of the desk's to what was asked.
    pub(crate) fn strange(&self) -> Strange {
        Strange::OtherAnswer(self.status)
    }
}

/// Why what answers isn't the desk.
#[derive(Clone, Copy, PartialEq, Eq)]
pub enum Strange {
    /// It doesn't speak HTTP as the desk does.
    NotHttp,
    /// Its answer is longer than any of the desk's.
    TooLong,
    /// Its answer, which has this status, is none of the desk's to what was asked.
    OtherAnswer(u16),
}

impl Strange {
    /// What it did, after the URL that was asked.
    pub fn text(self, alloc: Global) -> Result<String, AllocError> {
        let words = match self {
            Strange::NotHttp => "answered, but not by HTTP as the desk does",
            Strange::TooLong => "answered with more than the desk ever does",
            Strange::OtherAnswer(status) => {
                return format!(in alloc; "answered {status}, but not as the desk does");
            }
        };
        String::from_str(alloc, words)
    }
}

/// What comes of an exchange.
#[derive(Drop)]
pub enum Exchanged {
    /// The first whole answer but 502, 503 and 504.
    Answered(Answer),
    NotTheDesk(Strange),
    /// No try had an answer, the last one for this reason: it isn't known whether a command was done.
    Unknown(Why),
    /// No try had a connection, the last one for this reason: nothing was sent.
    Unsent(Why),
}

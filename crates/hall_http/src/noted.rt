//! Readers and writers whose failures are noted.
ghost use Rattle.std.specs.Prelude.{◌≡◌, ◌<◌, ◌≤◌, ◌||◌, false, length, is_none, IfSome};
ghost use Rattle.hall_http.specs.Noted.{calls_of, inner_of, failed_of, one_more, takes_of, counted, Takes, Puts};

use std::io::{Read, Write};

/// A reader or a writer, with whether a call failed, how many takes there were, and how many of them gave an octet.
#[derive(Drop)]
pub struct Noted<T> {
    inner: T,
    has_failed: bool,
    calls: u16,
    takes: u16,
}

impl<T> Noted<T> {
    /// Nothing is noted yet.
    pub fn new(inner: T) -> Noted<T>
        ensures inner { inner_of result ≡ inner }
        ensures failed { failed_of result ≡ false }
        ensures calls { calls_of result ≡ 0 }
        ensures takes { takes_of result ≡ 0 }
    {
        Noted {
            inner,
            has_failed: false,
            calls: 0,
            takes: 0,
        }
    }

    /// The reader or the writer.
    pub fn into_inner(self) -> T
        ensures { result ≡ inner_of self }
    {
        self.inner
    }

    /// Whether a call failed so far.
    pub fn failed(&self) -> bool
        ensures { result ≡ failed_of self.now }
    {
        self.has_failed
    }

    /// How many takes gave an octet so far. It stays at 65,535.
    pub fn takes(&self) -> u16
        ensures { result ≡ takes_of self.now }
    {
        self.takes
    }
}

impl<R: Read> Noted<R> {
    /// One read into a buffer that isn't empty: how many octets came, 0 at the end, nothing where the read
    /// failed.
    pub fn take(&mut self, buf: &mut [u8]) -> Option<usize>
        requires { 0 < length buf.old }
        ensures bound { IfSome result (λ n. n ≤ length buf.new) }
        ensures octets { Takes (R.remaining (inner_of self.old)) (R.remaining (inner_of self.new)) result buf.new }
        ensures failed { failed_of self.new ≡ (failed_of self.old || is_none result) }
        ensures calls { calls_of self.new ≡ one_more (calls_of self.old) }
        ensures takes { takes_of self.new ≡ counted result (takes_of self.old) }
    {
        self.calls = self.calls.saturating_add(1);
        match self.inner.read(buf) {
            Ok(n) => {
                if n != 0 {
                    self.takes = self.takes.saturating_add(1);
                }
                Some(n)
            }
            Err(_) => {
                self.has_failed = true;
                None
            }
        }
    }
}

impl<W: Write> Noted<W> {
    /// One write of the octets: how many were taken, nothing where the write failed. That some octets were
    /// given and none taken is a failure.
    pub fn put(&mut self, octets: &[u8]) -> Option<usize>
        ensures bound { IfSome result (λ n. n ≤ length octets.now) }
        ensures some { IfSome result (λ n. 0 < length octets.now → 0 < n) }
        ensures octets { Puts (W.contents (inner_of self.old)) (W.contents (inner_of self.new)) result octets.now }
        ensures failed { failed_of self.new ≡ (failed_of self.old || is_none result) }
        ensures calls { calls_of self.new ≡ calls_of self.old }
        ensures takes { takes_of self.new ≡ takes_of self.old }
    {
        let Ok(n) = self.inner.write(octets) else {
            self.has_failed = true;
            return None;
        };
        if n == 0 && !octets.is_empty() {
            self.has_failed = true;
            return None;
        }
        Some(n)
    }
}

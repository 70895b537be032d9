//! The time by which connections are late.
ghost use Rattle.std.specs.Prelude.{◌≤◌};

/// How many milliseconds of a turn count at most.
const MAX_COUNTED: u64 = 100;

/// The milliseconds between the stamps of turns, of which those of each turn count up to 100: what a turn took longer was the
/// desk's or the disk's time, and no client's.
#[derive(Drop)]
pub(crate) struct ServedTime {
    // The greatest stamp so far.
    last: u64,
    served: u64,
    ghost within: { served ≤ last },
}

impl ServedTime {
    ghost use Rattle.std.specs.Prelude.{◌≡◌, ◌+◌, max};
    ghost use Rattle.serve_sockets.specs.ServedTime.{counted, last_of, served_of};

    pub(crate) fn new() -> ServedTime
        ensures served { served_of result ≡ 0 }
        ensures last { last_of result ≡ 0 }
    {
        ServedTime { last: 0, served: 0 }
    }

    /// A turn has a stamp of so many milliseconds.
    pub(crate) fn pass(&mut self, millis: u64)
        ensures served { served_of self.new ≡ served_of self.old + counted (last_of self.old) millis }
        ensures last { last_of self.new ≡ max (last_of self.old) millis }
    {
        let passed = millis.saturating_sub(self.last);
        self.last = self.last.max(millis);
        self.served += passed.min(MAX_COUNTED);
    }

    /// How many milliseconds counted so far.
    pub(crate) fn now(&self) -> u64
        ensures { result ≡ served_of self.now }
    {
        self.served
    }
}

//! The requests that wait to be answered together, by the slots of their connections.
ghost use Rattle.std.specs.Prelude.{◌≡◌, ◌-◌, ◌++◌, ◌∷◌, [], IfErr, IfNone, IfSome, IfOk, None, Some, drop, length, OnOk, OnErr};

use std::alloc::{AllocError, Global};
use std::collections::VecDeque;

/// The maximum of requests that are answered by one commit.
pub(crate) const MAX_GROUP: usize = 64;

/// How long, in milliseconds of served time, the first of them waits at most while something else may be there.
const MAX_PATIENCE: u64 = 10;

/// The slots in the order in which their requests were decided.
#[derive(Drop)]
pub(crate) struct Waiting {
    slots: VecDeque<usize>,
    // Since when the first of them waits, in served time.
    since: u64,
    // When some of them were handed over, in served time, if no turn began since.
    handed: Option<u64>,
    // How long the first one waits while something else may be there: as long as the last commit took.
    patience: u64,
    // How many of the first are answered alone, one after the other, before others are answered together.
    alone: usize,
}

impl Waiting {
    ghost use Rattle.serve_sockets.specs.Waiting.{alone_of, handed_of, is_due, patience_after, patience_of, since_of, waiting_of};

    /// No request waits.
    pub(crate) fn new(alloc: Global) -> Waiting
        ensures waiting { waiting_of result ≡ [] }
        ensures patience { patience_of result ≡ 0 }
        ensures handed { handed_of result ≡ None }
    {
        Waiting {
            slots: VecDeque::new(alloc),
            since: 0,
            handed: None,
            patience: 0,
            alone: 0,
        }
    }

    /// How many there are.
    pub(crate) fn count(&self) -> usize
        ensures { result ≡ length (waiting_of self.now) }
    {
        self.slots.len()
    }

    /// A turn begins, at a served time.
    pub(crate) fn begin(&mut self, now: u64)
        ensures patience { patience_of self.new ≡ patience_after now (handed_of self.old) (patience_of self.old) }
        ensures handed { handed_of self.new ≡ None }
        ensures waiting { waiting_of self.new ≡ waiting_of self.old }
        ensures since { since_of self.new ≡ since_of self.old }
    {
        if let Some(handed) = self.handed {
            self.patience = now.saturating_sub(handed).min(MAX_PATIENCE);
            self.handed = None;
        }
    }

    /// Some are handed over, at a served time.
    pub(crate) fn hand(&mut self, now: u64)
        ensures { self.new ≡ record self.old { handed = Some now } }
    {
        self.handed = Some(now);
    }

    /// One more waits, since a served time. The error is want of memory.
    pub(crate) fn add(&mut self, slot: usize, now: u64) -> Result<(), AllocError>
        ensures added { OnOk result (waiting_of self.new ≡ waiting_of self.old ++ slot ∷ []) }
        ensures same { OnErr result (waiting_of self.new ≡ waiting_of self.old) }
        ensures patience { patience_of self.new ≡ patience_of self.old }
    {
        if self.slots.is_empty() {
            self.since = now;
        }
        self.slots.push_back(slot)?;
        Ok(())
    }

    /// One that had waited waits again, before all others. The error is want of memory.
    pub(crate) fn put_back(&mut self, slot: usize, now: u64) -> Result<(), AllocError>
        ensures added { OnOk result (waiting_of self.new ≡ slot ∷ waiting_of self.old) }
        ensures same { OnErr result (waiting_of self.new ≡ waiting_of self.old) }
        ensures patience { patience_of self.new ≡ patience_of self.old }
        ensures alone { alone_of self.new ≡ alone_of self.old }
    {
        if self.slots.is_empty() {
            self.since = now;
        }
        self.slots.push_front(slot)?;
        Ok(())
    }

    /// So many of the first are answered alone, one after the other, before others are answered together.
    pub(crate) fn separate(&mut self, count: usize)
        ensures { self.new ≡ record self.old { alone = count } }
    {
        self.alone = count;
    }

    /// Whether the first one is answered alone: no other waits, or it was put back so.
    pub(crate) fn has_lone(&self) -> bool {
        self.slots.len() == 1 || self.alone > 0
    }

    /// The one that waits longest. It waits no more.
    pub(crate) fn next(&mut self) -> Option<usize>
        ensures next { IfSome result (λ slot. waiting_of self.old ≡ slot ∷ waiting_of self.new) }
        ensures none { IfNone result (waiting_of self.old ≡ []) }
        ensures patience { patience_of self.new ≡ patience_of self.old }
        ensures alone { alone_of self.new ≡ alone_of self.old - 1 }
    {
        self.alone = self.alone.saturating_sub(1);
        self.slots.pop_front()
    }

    /// Whether those that wait are handed over, at a served time: as many wait as may be answered together, or the first one waits as long
    /// as the last commit took, or nothing else is known to be there.
    pub(crate) fn is_due(&self, now: u64, is_idle: bool) -> bool
        ensures { result ≡ is_due now is_idle self.now }
    {
        let has_waited = now.saturating_sub(self.since) >= self.patience;
        !self.slots.is_empty() && (self.slots.len() >= MAX_GROUP || has_waited || is_idle)
    }
}

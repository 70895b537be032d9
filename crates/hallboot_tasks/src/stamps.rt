//! Where a service's ticks come from.
ghost use Rattle.std.specs.{Prelude.{◌≡◌, ◌≤◌, ◌<◌, ◌+◌, ◌*◌, ◌/◌, ◌%◌, ◌↔◌, IfSome, IsNone}, Duration.as_nanos};

use crate::random_block::RandomBlock;
use hall_desk::Stamp;
use hall_types::{MAX_MOMENT, Moment};
use rand_core::TryRng;
use serve_sockets::{Source, Tick};
use std::time::{Clock, Duration, Instant, SystemTime, UNIX_EPOCH};

// The milliseconds of a second.
const SECOND: u32 = 1_000;

// The time since 1970 by the system's clock. None before.
fn since_1970(clock: &impl Clock) -> Option<Duration> {
    let time = SystemTime::now(clock).ok()?;
    time.duration_since(UNIX_EPOCH).ok()
}

// The moment of a time since 1970, its whole seconds. None after the last moment.
fn moment_of(since: Duration) -> Option<Moment>
    ensures moment { IfSome result (λ moment. moment ≡ as_nanos since / 1_000_000_000) }
    ensures none { IsNone result ↔ (MAX_MOMENT < as_nanos since / 1_000_000_000) }
{
    Moment::new(since.as_secs()).ok()
}

// The moment of the system's clock. None before 1970.
pub(crate) fn now(clock: &impl Clock) -> Option<Moment> {
    moment_of(since_1970(clock)?)
}

// How many milliseconds it is to the next whole second, rounded up.
fn to_next_second(since: Duration) -> u32
    ensures reached { 1_000_000_000 ≤ as_nanos since % 1_000_000_000 + result * 1_000_000 }
    ensures soonest { as_nanos since % 1_000_000_000 + result * 1_000_000 < 1_001_000_000 }
{
    SECOND - since.subsec_millis()
}

/// The system's clocks, and a source of random octets with a block that it gave.
#[derive(Drop)]
pub(crate) struct Stamps<'a, C, R> {
    clock: &'a C,
    start: Instant,
    random: R,
    block: RandomBlock,
}

impl<'a, C: Clock, R: TryRng> Stamps<'a, C, R> {
    ghost use Rattle.std.specs.Prelude.{[]};

    /// Stamps that count milliseconds from a start on.
    pub(crate) fn since(clock: &'a C, start: Instant, random: R) -> Stamps<'a, C, R>
        ensures block { result.block ≡ [] }
        ensures random { result.random ≡ random }
    {
        Stamps {
            clock,
            start,
            random,
            block: RandomBlock::new(),
        }
    }

    // Milliseconds since the start.
    fn millis(&self) -> Option<u64> {
        let now = Instant::now(self.clock).ok()?;
        u64::try_from(now.duration_since(self.start).as_millis()).ok()
    }
}

impl<'a, C: Clock, R: TryRng> Source for Stamps<'a, C, R> {
    ghost use Rattle.std.specs.Prelude.{MatchOption};
    ghost use Rattle.hallboot_tasks.specs.RandomBlock.{TakesNext, TakesNone};

    // A tick's stamp has the next octets, which no other stamp has.
    ghost may_give = { λ old given new. MatchOption given (TakesNone old.block new.block)
        (λ tick. TakesNext R.TryRng.may_fill old.block old.random tick.stamp.fresh new.block new.random) };

    fn tick(&mut self) -> Option<Tick> {
        let moment = now(self.clock)?;
        let millis = self.millis()?;
        let fresh = self.block.token(&mut self.random)?;
        let stamp = Stamp { moment, fresh };
        Some(Tick { stamp, millis })
    }

    // Deadlines are whole seconds, so that none passes earlier.
    fn pause(&mut self) -> u64 {
        match since_1970(self.clock) {
            Some(since) => u64::from(to_next_second(since)),
            None => u64::from(SECOND),
        }
    }
}

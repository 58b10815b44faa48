//! The monotonic clock, in milliseconds from the program's start, and the clock on the wall.
ghost use Rattle.std.specs.Prelude.{◌≡◌, ◌<◌, ◌≤◌, ◌^◌, None};
ghost use Rattle.bng_real.specs.Clock.{moment_after};

use bng_plant::Clock;
use std::time::{Clock as SystemClock, Duration, Instant, SystemTime};

/// The last moment that there is.
const LAST_MOMENT: u128 = (1 << 60) - 1;

/// The system's clocks. A clock that answers an error, or falls, stands still.
#[derive(Drop)]
pub struct RealClock<'a, C: SystemClock> {
    clock: &'a C,
    start: Option<Instant>,
    last: u64,
    wall: u64,
    ghost bound: { last < 2 ^ 60 },
}

impl<'a, C: SystemClock> RealClock<'a, C> {
    /// A clock at moment 0.
    pub fn new(clock: &'a C) -> RealClock<'a, C>
        ensures { result.last ≡ 0 }
    {
        RealClock {
            clock,
            start: Instant::now(clock).ok(),
            last: 0,
            wall: 0,
        }
    }

    fn since_start(&self) -> Option<Duration> {
        self.start?.elapsed(self.clock).ok()
    }

    fn since_1970(&self) -> Option<u64> {
        let now = SystemTime::now(self.clock).ok()?;
        let passed = now.duration_since(SystemTime::UNIX_EPOCH).ok()?;
        Some(passed.as_secs())
    }
}

impl<C: SystemClock> Clock for RealClock<'_, C> {
    ghost told = { λ clock. record { answers = None; last = clock.last } };

    fn now(&mut self) -> u64 {
        self.last = moment(self.last, self.since_start());
        self.last
    }

    fn wall(&mut self) -> u64 {
        self.wall = self.since_1970().unwrap_or(self.wall);
        self.wall
    }
}

/// The moment after the last one, where so much has passed by the system's clock.
fn moment(last: u64, passed: Option<Duration>) -> u64
    requires { last < 2 ^ 60 }
    ensures exact { result ≡ moment_after last passed }
    ensures later { last ≤ result }
    ensures bound { result < 2 ^ 60 }
{
    match passed {
        Some(passed) => last.max(passed.as_millis().min(LAST_MOMENT) as u64),
        None => last,
    }
}

//! The clock of the peers.
ghost use Rattle.std.specs.Prelude.{◌≡◌, ◌≤◌, ◌<◌, ◌^◌, None};
ghost use Rattle.bng_peer.specs.Clock.{moment_after};

use bng_plant::Clock;
use std::cell::Cell;
use std::rc::Rc;

/// The last moment that there is.
const LATEST: u64 = (1 << 60) - 1;

/// The second on the wall at the moment 0.
pub(crate) const WALL: u64 = 1_700_000_000;

/// The clock of the peers, in milliseconds from 0 on. It moves where the plant that it was opened with waits, and nowhere
/// else.
#[derive(Drop)]
pub struct PeerClock {
    moment: Rc<Cell<u64>>,
    last: u64,
    ghost bound: { last < 2 ^ 60 },
}

impl PeerClock {
    ghost use Rattle.bng_peer.specs.Telling.{clock_told};

    /// A clock at the moment that is shared.
    pub(crate) fn new(moment: Rc<Cell<u64>>) -> PeerClock
        ensures { clock_told result ≡ record { answers = None; last = 0 } }
    {
        PeerClock { moment, last: 0 }
    }
}

impl Clock for PeerClock {
    ghost use Rattle.bng_peer.specs.Telling.{clock_told};

    ghost told = { clock_told };

    fn now(&mut self) -> u64 {
        self.last = moment(self.last, self.moment.get());
        self.last
    }

    fn wall(&mut self) -> u64 {
        WALL.saturating_add(self.moment.get() / 1000)
    }
}

/// The moment after the last one, where the peers share this one.
fn moment(last: u64, shared: u64) -> u64
    requires { last < 2 ^ 60 }
    ensures exact { result ≡ moment_after last shared }
    ensures later { last ≤ result }
    ensures bound { result < 2 ^ 60 }
{
    last.max(shared.min(LATEST))
}

//! When a message in flight goes out again.
ghost use Rattle.std.specs.Prelude.{◌≡◌, ◌≤◌, min, map, drop, length, unwrap_or};
ghost use Rattle.bng_l2tp_reliable.specs.Timers.{never};
ghost use Rattle.bng_l2tp_reliable.specs.Flight.{wait as wait_of, is_over as is_over_at, sent_first, sent_again, flight_due as due_in, flight_deadline as deadline_in};

use crate::answers::Due;
use crate::ring::IN_FLIGHT_MOST;
use arrayvec::ArrayVec;

/// How long a message waits for its acknowledgement before each time that it goes out again, in milliseconds (RFC 2661
/// section 5.8). It is given up so long after the last time as it waited before it.
pub const WAITS: [u64; 5] = [1000, 2000, 4000, 8000, 8000];

/// When a message in flight went out last, in milliseconds, and how often it went out again.
#[derive(Clone, Copy, Default)]
pub struct Sent {
    pub moment: u64,
    pub resends: u8,
}

/// For each message in flight, oldest first.
pub(crate) type Sends = ArrayVec<Sent, IN_FLIGHT_MOST>;

impl Sent {
    /// How long it waits for its acknowledgement from then on, in milliseconds.
    pub(crate) fn wait(&self) -> u64
        ensures { result ≡ wait_of self.now.resends }
    {
        WAITS[(self.resends as usize).min(WAITS.len() - 1)]
    }

    /// Whether the wait is over.
    pub(crate) fn is_over(&self, now: u64) -> bool
        ensures { result ≡ is_over_at self.now now }
    {
        self.wait() <= now.saturating_sub(self.moment)
    }
}

/// A message goes out for the first time.
pub(crate) fn first(moment: u64) -> Sent
    ensures { result ≡ sent_first moment }
{
    Sent { moment, resends: 0 }
}

/// Each message goes out again.
pub(crate) fn send_again(sends: &mut Sends, now: u64)
    ensures { sends.new.items ≡ map (sent_again now) sends.old.items }
{
    each_again(sends.as_mut_slice(), now);
}

fn each_again(sends: &mut [Sent], now: u64)
    ensures { sends.new ≡ map (sent_again now) sends.old }
{
    for sent in sends.iter_mut() {
        *sent = Sent {
            moment: now,
            resends: sent.resends.saturating_add(1),
        };
    }
}

/// Forgets the oldest ones.
pub(crate) fn forget(sends: &mut Sends, count: usize)
    requires { count ≤ length sends.old.items }
    ensures { sends.new.items ≡ drop count sends.old.items }
{
    let Ok(rest) = ArrayVec::try_from(&sends[count..]) else {
        unreachable!();
    };
    *sends = rest;
}

/// What the oldest message in flight asks for.
pub(crate) fn flight_due(sends: &[Sent], now: u64) -> Due
    ensures { result ≡ due_in sends.now now }
{
    let Some(oldest) = sends.first() else {
        return Due::Nothing;
    };
    if !oldest.is_over(now) {
        Due::Nothing
    } else if (oldest.resends as usize) < WAITS.len() {
        Due::Resend
    } else {
        Due::GiveUp
    }
}

/// The first moment at which the oldest message in flight asks for something; 2^64 - 1 where there is none.
pub(crate) fn flight_deadline(sends: &[Sent]) -> u64
    ensures { result ≡ min (unwrap_or (deadline_in sends.now) never) never }
{
    match sends.first() {
        Some(oldest) => oldest.moment.saturating_add(oldest.wait()),
        None => u64::MAX,
    }
}

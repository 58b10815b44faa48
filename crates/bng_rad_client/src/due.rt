ghost use Rattle.std.specs.Prelude.{◌≡◌, ◌+◌, ◌≤◌, nat_le};
ghost use Rattle.std.specs.Option.{option_copied};
ghost use Rattle.bng_rad_client.specs.Due.{is_sought, older};
ghost use Rattle.bng_rad_client.specs.DueRequests.{longest_of};

use crate::pending::Pending;
use crate::rules::{Lane, Owner};
use bng_base::Frame;

/// A request is sent again so many milliseconds after its last send.
pub const INTERVAL: u64 = 3000;

/// Which requests are looked for: those that were sent as often as they are to be, those that were not, all that are due, or all.
#[derive(Clone, Copy)]
pub enum Sought {
    Timeout(u8),
    Resend(u8),
    Endless,
    Any,
}

/// A request whose moment has come: where it stands, and when it was last sent.
#[derive(Clone, Copy, PartialEq, Eq, Debug)]
pub struct LastSend {
    pub id: u8,
    pub sent_at: u64,
}

/// Whether the interval of a request has passed that was last sent at this moment.
pub(crate) fn is_due(sent_at: u64, now: u64) -> bool
    ensures { result ≡ nat_le (sent_at + 3000) now }
{
    sent_at <= now && INTERVAL <= now - sent_at
}

// Whether a request is one of those and its interval has passed.
fn is_sought(request: &Pending, now: u64, sought: Sought) -> bool
    ensures { result ≡ is_sought sought now request.now }
{
    let due = is_due(request.sent_at, now);
    match sought {
        Sought::Timeout(tries) => due && tries <= request.sends,
        Sought::Resend(tries) => due && request.sends < tries,
        Sought::Endless => due,
        Sought::Any => true,
    }
}

// The one that was sent first: the best so far, or the request at this identifier.
pub(crate) fn older(
    best: Option<LastSend>,
    id: u8,
    place: Option<&Pending>,
    now: u64,
    sought: Sought,
) -> Option<LastSend>
    ensures { result ≡ older (is_sought sought now) best id (option_copied place.entry) }
{
    let Some(request) = place else {
        return best;
    };
    if !is_sought(request, now, sought) {
        return best;
    }
    match best {
        Some(due) if due.sent_at <= request.sent_at => best,
        _ => Some(LastSend {
            id,
            sent_at: request.sent_at,
        }),
    }
}

/// What the desk is to do for a request: to send its frame again, or to tell its owner that it was given up.
#[derive(Drop)]
pub enum DueRequest {
    Resend { lane: Lane, id: u8, frame: Frame },
    TimedOut(Owner),
}

/// Which of two lanes' oldest requests was sent first.
#[derive(Clone, Copy)]
pub enum Longest {
    Auth(u8),
    Acct(u8),
    Neither,
}

pub(crate) fn longest_of(auth: Option<LastSend>, acct: Option<LastSend>) -> Longest
    ensures { result ≡ longest_of auth acct }
{
    match (auth, acct) {
        (Some(first), Some(second)) => {
            if first.sent_at <= second.sent_at {
                Longest::Auth(first.id)
            } else {
                Longest::Acct(second.id)
            }
        }
        (Some(first), None) => Longest::Auth(first.id),
        (None, Some(second)) => Longest::Acct(second.id),
        (None, None) => Longest::Neither,
    }
}

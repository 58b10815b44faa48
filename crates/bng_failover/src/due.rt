// Which request is due first, and where it goes.
ghost use Rattle.std.specs.Prelude.{◌≡◌, ◌+◌, ◌<◌, ◌≤◌, IfSome, IfNone, IsSome, length};
ghost use Rattle.bng_failover.specs.Servers.{request_at};
ghost use Rattle.bng_failover.specs.Due.{sought_of, next_of, NoneDue, IsFirstDue, NoneGivenUp, HasTimedOut, earlier, IsEarliest};
ghost use Rattle.bng_failover.specs.Places.{GoesTo};
ghost use Rattle.bng_failover.specs.Replies.{IsStranger, IsSender};

use crate::server::Server;
use bng_base::Peer;
use bng_rad_client::{LastSend, Lane, Sought};

/// A request that is due, and the place of the server that holds it.
#[derive(Clone, Copy)]
pub(crate) struct DueAt {
    pub at: usize,
    pub due: LastSend,
}

// Which requests of the server at this place are sent when they are due.
fn sought_of(lane: Lane, count: usize, tries: u8, at: usize) -> Sought
    requires { at < count }
    ensures { result ≡ sought_of lane count tries at }
{
    match lane {
        Lane::Auth if at + 1 < count => Sought::Endless,
        Lane::Auth => Sought::Resend(tries),
        Lane::Acct => Sought::Endless,
    }
}

// The server to which a request goes from the server at this place.
fn next_of(lane: Lane, count: usize, at: usize) -> Option<usize>
    requires { at < count }
    ensures next { result ≡ next_of lane count at }
    ensures there { IfSome result (λ next. next < count) }
{
    if at + 1 < count {
        return Some(at + 1);
    }
    match lane {
        Lane::Acct if 0 < at => Some(0),
        _ => None,
    }
}

/// The server to which the request goes that the server at this place holds under an identifier.
pub(crate) fn goes_to(servers: &[Server], lane: Lane, tries: u8, at: usize, id: u8) -> Option<usize>
    requires there { at < length servers.now }
    requires held { IsSome (request_at servers.now at id) }
    ensures goes { GoesTo lane servers.now tries at id result }
    ensures there { IfSome result (λ next. next < length servers.now) }
{
    match servers[at].requests.get(id) {
        Some(request) if request.sends < tries => None,
        Some(_) => next_of(lane, servers.len(), at),
        None => unreachable!(),
    }
}

/// The request that is due to be sent first.
pub(crate) fn first_due(servers: &[Server], lane: Lane, tries: u8, now: u64) -> Option<DueAt>
    ensures some { IfSome result (λ d. IsFirstDue lane servers.now tries now d.at d.due) }
    ensures none { IfNone result (NoneDue lane servers.now tries now) }
    ensures there { IfSome result (λ d. d.at < length servers.now) }
{
    for at in 0..servers.len() {
        let sought = sought_of(lane, servers.len(), tries, at);
        if let Some(due) = servers[at].requests.oldest(now, sought) {
            return Some(DueAt { at, due });
        }
    }
    None
}

/// Of the requests that were sent to the last server as often as they are to be, the one that timed out first.
pub(crate) fn timed_out(servers: &[Server], tries: u8, now: u64) -> Option<DueAt>
    requires { 0 < length servers.now }
    ensures some { IfSome result (λ d. HasTimedOut servers.now tries now d.at d.due) }
    ensures none { IfNone result (NoneGivenUp servers.now tries now) }
    ensures there { IfSome result (λ d. d.at < length servers.now) }
{
    let at = servers.len() - 1;
    match servers[at].requests.oldest(now, Sought::Timeout(tries)) {
        Some(due) => Some(DueAt { at, due }),
        None => None,
    }
}

/// The place of the first of the servers that has this address.
pub(crate) fn place_of(servers: &[Server], from: Peer) -> Option<usize>
    ensures some { IfSome result (λ at. IsSender servers.now from at) }
    ensures none { IfNone result (IsStranger servers.now from) }
    ensures there { IfSome result (λ at. at < length servers.now) }
{
    for at in 0..servers.len() {
        if servers[at].peer == from {
            return Some(at);
        }
    }
    None
}

// The earlier of two moments, if there is one.
fn earlier(best: Option<u64>, other: Option<LastSend>) -> Option<u64>
    ensures { result ≡ earlier best other }
{
    let Some(due) = other else {
        return best;
    };
    match best {
        Some(moment) if moment <= due.sent_at => best,
        _ => Some(due.sent_at),
    }
}

/// The moment of the last send of the request that was sent first.
pub(crate) fn earliest(servers: &[Server]) -> Option<u64>
    ensures { IsEarliest servers.now (length servers.now) result }
{
    let mut best = None;
    for at in 0..servers.len() {
        best = earlier(best, servers[at].requests.oldest(0, Sought::Any));
    }
    best
}

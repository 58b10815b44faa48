//! The sessions of a shard for which a request may come again (RFC 2516 section 5.4): discovery made them, they have not ended, and
//! their LCP was never Opened.
ghost use Rattle.std.specs.Prelude.{◌≡◌, ◌<◌, length, option_map, vec_capacity};
ghost use Rattle.bng_sessions.specs.Sessions.{value_at};
ghost use Rattle.bng_steps.specs.Discovery.{is_repeated};
ghost use Rattle.bng_steps.specs.Listing.{IsLowestPassing, does_pass, with_listed, without_listed};
ghost use Rattle.bng_steps.specs.Serving.{is_young};

use crate::questions::{lower, take_off};
use crate::session::Session;
use crate::store::Store;
use bng_base::{Mac, SessionNo};

// Lists the number of a young session.
pub fn list_young(young: &mut Vec<SessionNo>, session: &Session)
    requires room { length young.old.items < vec_capacity young.old }
    ensures items { young.new.items ≡ with_listed is_young session.now young.old.items }
    ensures capacity { vec_capacity young.new ≡ vec_capacity young.old }
{
    if session.is_young() {
        young.push_reserved(session.number);
    }
}

// Takes it off the list.
pub fn unlist_young(young: &mut Vec<SessionNo>, session: &Session)
    ensures items { young.new.items ≡ without_listed is_young session.now young.old.items }
    ensures capacity { vec_capacity young.new ≡ vec_capacity young.old }
{
    if session.is_young() {
        take_off(young, session.number);
    }
}

// Whether the session with this number was made for the same request before.
fn repeats<S: Store>(
    number: SessionNo,
    sessions: &S,
    port: u8,
    mac: Mac,
    asked: Option<&[u8]>,
) -> bool
    ensures { result ≡ does_pass (is_repeated port mac (option_map (λ o. o.now) asked.entry)) (value_at (S.sessions sessions.now) number.0) }
{
    match sessions.get(number) {
        Some(session) => session.is_repeated(port, mac, asked),
        None => false,
    }
}

// The lowest of these numbers whose session was made for the same request before.
pub fn lowest_repeated<S: Store>(
    young: &[SessionNo],
    sessions: &S,
    port: u8,
    mac: Mac,
    asked: Option<&[u8]>,
) -> Option<SessionNo>
    ensures { IsLowestPassing (is_repeated port mac (option_map (λ o. o.now) asked.entry)) (S.sessions sessions.now) young.now result }
{
    let mut lowest = None;
    for number in young {
        if repeats(*number, sessions, port, mac, asked) {
            lowest = Some(lower(lowest, *number));
        }
    }
    lowest
}

//! The questions of a shard's sessions, and which of them were handed out.
ghost use Rattle.std.specs.Prelude.{◌≡◌, ◌<◌, ◌≤◌, ◌==◌, ◌⊎◌, not, Some, IfOk, IfSome, filter, length, slice_index_or, vec_capacity};
ghost use Rattle.bng_ppp.specs.Claims.{claim_of};
ghost use Rattle.bng_steps.specs.Listing.{with_listed, without_listed};
ghost use Rattle.bng_steps.specs.Questions.{IsLowestWaiting, handed_after, none_handed, place_of, waits_at};
ghost use Rattle.bng_steps.specs.Serving.{asks};

use crate::error::ShardError;
use crate::session::Session;
use crate::store::Store;
use arrayvec::ArrayVec;
use bng_auth::{Credentials, Proof};
use bng_base::SessionNo;
use bng_verdict::QuestionNo;
use std::alloc::Global;
use std::marker::Model;

/// So many session numbers are a shard's.
const NUMBERS: usize = 1022;

/// Which questions of a shard were handed out: of each session the number of the last one.
#[derive(Drop)]
pub struct Handed {
    last: Vec<u64>,
}

impl Model for Handed {
    ghost use Rattle.std.specs.Prelude.{◌≡◌, List, ℕ, length};

    ghost Value = { List ℕ };

    ghost view = { λ h. h.last.items };

    ghost invariant = { λ h. length h.last.items ≡ 1022 };
}

// Where a session number stands among those of its shard.
fn place_of(session: SessionNo) -> usize
    ensures { result ≡ place_of session }
{
    usize::from(session.0 % 1024).saturating_sub(1)
}

impl Handed {
    /// None was handed out.
    pub fn open(alloc: Global) -> Result<Handed, ShardError>
        ensures { IfOk result (λ h. h ≡ none_handed) }
    {
        match Vec::from_elem(alloc, 0, NUMBERS) {
            Ok(last) => Ok(Handed { last }),
            Err(_) => Err(ShardError::OutOfMemory),
        }
    }

    /// For how many session numbers it says so: for all of a shard's.
    pub fn numbers(&self) -> usize
        ensures number { result ≡ length self.now }
        ensures all { result ≡ 1022 }
    {
        self.last.len()
    }

    /// Whether the question of this number was handed out.
    pub fn has(&self, number: QuestionNo) -> bool
        ensures { result ≡ (slice_index_or self.now (place_of number.session) 0 == number.ask) }
    {
        match self.last.as_slice().get(place_of(number.session)) {
            Some(ask) => *ask == number.ask,
            None => number.ask == 0,
        }
    }

    /// The question of this number is handed out.
    pub fn note(&mut self, number: QuestionNo)
        requires { place_of number.session < 1022 }
        ensures { self.new ≡ handed_after self.old number }
    {
        self.last.as_mut_slice()[place_of(number.session)] = number.ask;
    }
}

// Lists the number of a session that has an open question.
pub fn list(asking: &mut Vec<SessionNo>, session: &Session)
    requires room { length asking.old.items < vec_capacity asking.old }
    ensures items { asking.new.items ≡ with_listed asks session.now asking.old.items }
    ensures capacity { vec_capacity asking.new ≡ vec_capacity asking.old }
{
    if session.question().is_some() {
        asking.push_reserved(session.number);
    }
}

// Takes it off the list.
pub fn unlist(asking: &mut Vec<SessionNo>, session: &Session)
    ensures items { asking.new.items ≡ without_listed asks session.now asking.old.items }
    ensures capacity { vec_capacity asking.new ≡ vec_capacity asking.old }
{
    if session.question().is_some() {
        take_off(asking, session.number);
    }
}

// Takes this number off a list.
pub fn take_off(numbers: &mut Vec<SessionNo>, number: SessionNo)
    ensures items { numbers.new.items ≡ filter (λ m. not (m.0 == number.0)) numbers.old.items }
    ensures capacity { vec_capacity numbers.new ≡ vec_capacity numbers.old }
{
    numbers.retain(|n| n.0 != number.0);
}

// A copy of what a peer claims. It takes no memory.
pub fn copied(credentials: &Credentials) -> Credentials
    ensures { claim_of result ≡ claim_of credentials.now }
{
    Credentials {
        name: list_of(credentials.name.as_slice()),
        proof: match &credentials.proof {
            Proof::Pap(password) => Proof::Pap(list_of(password.as_slice())),
            Proof::Chap {
                id,
                challenge,
                value,
            } => Proof::Chap {
                id: *id,
                challenge: *challenge,
                value: *value,
            },
        },
    }
}

// A list of these octets.
fn list_of(octets: &[u8]) -> ArrayVec<u8, 128>
    requires { length octets.now ≤ 128 }
    ensures { result.items ≡ octets.now }
{
    let Ok(list) = ArrayVec::try_from(octets) else {
        unreachable!();
    };
    list
}

// Whether the session with this number has an open question that was not handed out yet.
fn waits<S: Store>(number: SessionNo, sessions: &S, handed: &Handed) -> bool
    ensures { result ≡ waits_at (S.sessions sessions.now) handed.now number }
{
    let Some(session) = sessions.get(number) else {
        return false;
    };
    match session.question() {
        Some(question) => !handed.has(QuestionNo {
            session: session.number,
            ask: question.number,
        }),
        None => false,
    }
}

// The lower one of two numbers, or the one that there is.
pub fn lower(lowest: Option<SessionNo>, number: SessionNo) -> SessionNo
    ensures one { (lowest ≡ Some result) ⊎ (result ≡ number) }
    ensures low { (result.0 ≤ number.0) × IfSome lowest (λ m. result.0 ≤ m.0) }
{
    match lowest {
        Some(other) => { if other.0 <= number.0 { other } else { number } }
        None => number,
    }
}

// The lowest of these numbers whose session has an open question that was not handed out yet.
pub fn lowest_waiting<S: Store>(
    asking: &[SessionNo],
    sessions: &S,
    handed: &Handed,
) -> Option<SessionNo>
    ensures { IsLowestWaiting (S.sessions sessions.now) handed.now asking.now result }
{
    let mut lowest = None;
    for number in asking {
        if waits(*number, sessions, handed) {
            lowest = Some(lower(lowest, *number));
        }
    }
    lowest
}

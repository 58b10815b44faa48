//! A plain store: the sessions in a list, by rising number. Several may have one address.
ghost use Rattle.std.specs.Prelude.{◌≡◌, ◌+◌, ◌<◌, ◌≤◌, T, length, IfOk, IfErr};
ghost use Rattle.std.specs.FinMap.{empty, is_sorted};
ghost use Rattle.std.specs.List.{HoldsAt, AllWithin};
ghost use Rattle.std.specs.Ordering.{nat_cmp};
ghost use Rattle.std.specs.declared.cmp.Ordering.TheVariants.{Less, Equal, Greater};
ghost use Rattle.bng_steps.specs.State.{leases};
ghost use Rattle.bng_steps.specs.Timers.{deadline_of};
ghost use Rattle.bng_steps.specs.declared.session.Session.{Session as Seen};
ghost use Rattle.bng_sessions.specs.Sessions.{Sessions, read_at};
ghost use Rattle.bng_steps_tests.specs.Plain.{IsBest};

use bng_base::{Ip4, SessionNo};
use bng_sessions::Slotted;
use bng_steps::{Session, Store};
use std::alloc::{AllocError, Global};
use std::cmp::Ordering;
use std::marker::Model;

/// The sessions of a shard, with their numbers, by rising number.
#[derive(Drop)]
pub struct Plain {
    shard: u16,
    sessions: Vec<(u16, Session)>,
}

impl Model for Plain {
    ghost use Rattle.std.specs.Prelude.{vec_capacity};
    ghost use Rattle.bng_sessions.specs.Sessions.{Sessions, sessions_code};
    ghost use Rattle.bng_steps.specs.contracts.session.Session.{the_row};
    ghost use Rattle.bng_steps.specs.declared.session.Session.{Session as Seen};

    ghost Value = { Sessions Seen };

    ghost coded = { sessions_code the_row.coded };

    ghost use Rattle.bng_steps_tests.specs.Plain.{IsPlain, seen};

    ghost view = { λ a. seen a.shard a.sessions.items };

    ghost invariant = { λ a. IsPlain a.shard a.sessions.items (vec_capacity a.sessions) };
}

// Where a number is, or where it would go.
fn search(entries: &[(u16, Session)], number: u16) -> Result<usize, usize>
    requires { T (is_sorted nat_cmp entries.now) }
    ensures here { IfOk result (λ i. (i < length entries.now) × HoldsAt (λ e. nat_cmp e.0 number ≡ Equal) entries.now i) }
    ensures bound { IfErr result (λ i. i ≤ length entries.now) }
    ensures before { IfErr result (λ i. AllWithin (λ e. nat_cmp e.0 number ≡ Less) entries.now 0 i) }
    ensures after { IfErr result (λ i. AllWithin (λ e. nat_cmp e.0 number ≡ Greater) entries.now i (length entries.now)) }
{
    entries.binary_search_by(
        |entry: &(u16, Session)| -> Ordering
            ensures { result ≡ nat_cmp entry.now.0 number }
        { entry.0.cmp(&number) },
    )
}

// Whether the session's live term has this address.
fn is_holder(session: &Session, address: Ip4) -> bool
    ensures { result ≡ leases address session.now }
{
    match session.lease() {
        Some(lease) => lease.address.0 == address.0,
        None => false,
    }
}

// The earlier one of what was found below this number, and of its own deadline.
fn better(
    best: Option<(u64, SessionNo)>,
    number: SessionNo,
    deadline: Option<u64>,
) -> Option<(u64, SessionNo)>
    ensures { (s : Sessions Seen) → read_at deadline_of s number.0 ≡ deadline → IsBest s number.0 best → IsBest s (number.0 + 1) result }
{
    let Some(moment) = deadline else {
        return best;
    };
    match best {
        Some(e) => {
            if e.0 <= moment {
                Some(e)
            } else {
                Some((moment, number))
            }
        }
        None => Some((moment, number)),
    }
}

impl Plain {
    /// No session of the shard with this number.
    pub(crate) fn open(alloc: Global, shard: u16) -> Result<Plain, AllocError>
        requires { shard < 64 }
        ensures { IfOk result (λ s. s ≡ record { shard = shard; by_number = empty }) }
    {
        let sessions = Vec::with_capacity(alloc, 1023)?;
        Ok(Plain { shard, sessions })
    }

    // The deadline of the session with this number.
    fn deadline_at(&self, number: SessionNo) -> Option<u64>
        ensures { result ≡ read_at deadline_of self.now number.0 }
    {
        self.get(number)?.deadline()
    }
}

impl Store for Plain {
    ghost use Rattle.std.specs.Prelude.{false};

    ghost sessions = { λ s. s };

    ghost unique = { false };

    fn shard(&self) -> u16 {
        self.shard
    }

    fn count(&self) -> u32 {
        self.sessions.len() as u32
    }

    fn get(&self, number: SessionNo) -> Option<&Session> {
        match search(self.sessions.as_slice(), number.0) {
            Ok(place) => Some(&self.sessions[place].1),
            Err(_) => None,
        }
    }

    fn vacant(&self) -> Option<SessionNo> {
        let first = self.shard * 1024 + 1;
        for n in first..first + 1022 {
            if self.get(SessionNo(n)).is_none() {
                return Some(SessionNo(n));
            }
        }
        None
    }

    fn holder(&self, address: Ip4) -> Option<&Session> {
        match self.sessions.iter().find(|e| is_holder(&e.1, address)) {
            Some(entry) => Some(&entry.1),
            None => None,
        }
    }

    fn earliest(&self) -> Option<(u64, SessionNo)> {
        let first = self.shard * 1024 + 1;
        let mut best = None;
        for n in first..first + 1022 {
            let number = SessionNo(n);
            best = better(best, number, self.deadline_at(number));
        }
        best
    }

    fn put(&mut self, number: SessionNo, session: Session) {
        match search(self.sessions.as_slice(), number.0) {
            Ok(_) => unreachable!(),
            Err(place) => {
                let _ = self.sessions.insert(place, (number.0, session));
            }
        }
    }

    fn remove(&mut self, number: SessionNo) -> Option<Session> {
        match search(self.sessions.as_slice(), number.0) {
            Ok(place) => Some(self.sessions.remove(place).1),
            Err(_) => None,
        }
    }
}

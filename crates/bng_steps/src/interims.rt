//! Interims (RFC 2869 section 5.16): which live terms owe one, and which were taken.
ghost use Rattle.std.specs.Prelude.{◌≡◌, ◌<◌, ◌^◌, nat_le, IfOk};
ghost use Rattle.bng_steps.specs.Interims.{interim_at, interim_in, no_reports, reported_at, with_report};
ghost use Rattle.bng_steps.specs.Surveying.{AreSpaced};

use crate::error::ShardError;
use crate::session::{Lease, Session};
use bng_base::SessionNo;
use std::alloc::Global;
use std::marker::Model;

/// By this a session number is told from those of other shards.
const SPAN: u16 = 1024;

/// The least Acct-Interim-Interval, in milliseconds.
pub const LEAST: u64 = 60_000;

/// Which Interims of a shard's sessions were taken: of each session the moment of the last one. And the moment before which none is due.
/// Moments are in milliseconds.
#[derive(Drop)]
pub struct Reports {
    last: Vec<u64>,
    next: u64,
}

impl Model for Reports {
    ghost use Rattle.std.specs.Prelude.{◌≡◌, ◌<◌, ◌^◌, length};
    ghost use Rattle.std.specs.List.{All};
    ghost use Rattle.bng_steps.specs.Interims.{Reports as Seen};

    ghost Value = { Seen };

    ghost view = { λ r. record { last = r.last.items; next = r.next } };

    ghost invariant = { λ r. (length r.last.items ≡ 1024) × All (λ m. m < 2 ^ 60) r.last.items × (r.next < 2 ^ 61) };
}

impl Reports {
    /// None was taken, and one may be due at any moment.
    pub fn open(alloc: Global) -> Result<Reports, ShardError>
        ensures { IfOk result (λ r. r ≡ no_reports) }
    {
        match Vec::from_elem(alloc, 0, usize::from(SPAN)) {
            Ok(last) => Ok(Reports { last, next: 0 }),
            Err(_) => Err(ShardError::OutOfMemory),
        }
    }

    /// Whether one may be due at this moment.
    pub fn may_be_due(&self, now: u64) -> bool
        ensures { result ≡ nat_le self.now.next now }
    {
        self.next <= now
    }

    /// None is due before this moment.
    pub fn wait_until(&mut self, next: u64)
        requires { next < 2 ^ 61 }
        ensures { self.new ≡ record self.old { next = next } }
    {
        self.next = next;
    }

    /// The moment of the last one of the session with this number; 0 before the first.
    pub fn reported_at(&self, number: SessionNo) -> u64
        ensures moment { result ≡ reported_at self.now.last number }
        ensures low { result < 2 ^ 60 }
    {
        self.last[usize::from(number.0 % SPAN)]
    }

    /// One of the session with this number is taken at this moment.
    pub fn note(&mut self, number: SessionNo, now: u64)
        requires { now < 2 ^ 60 }
        ensures after { self.new ≡ record self.old { last = with_report self.old.last now number } }
        ensures noted { reported_at self.new.last number ≡ now }
    {
        self.last[usize::from(number.0 % SPAN)] = now;
    }
}

// The moment from which on an Interim of a live term is due, where the last one of its session was at this moment.
fn interim_in(at: u64, lease: Option<Lease>) -> Option<u64>
    requires { at < 2 ^ 60 }
    ensures moment { result ≡ interim_in at lease }
    ensures spaced { AreSpaced lease }
{
    let mut life = lease?.life;
    life.report(life.began().max(at));
    life.interim_at()
}

/// The same for a session: none exactly where it has no live term, or one without Interims.
pub fn interim_at(session: &Session, reports: &Reports) -> Option<u64>
    ensures moment { result ≡ interim_at reports.now.last session.now }
    ensures spaced { AreSpaced session.now.lease }
{
    interim_in(reports.reported_at(session.number), session.lease())
}

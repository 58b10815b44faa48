//! The lifetime of a term.
ghost use Rattle.std.specs.Prelude.{◌≡◌, ℕ, ◌<◌, ◌≤◌, ◌^◌, List, [], ◌∷◌, ◌++◌, IsTrue, IsSomeAnd, OnSome, IfNone};
ghost use mathlib.Core.Logic.{◌↔◌};
ghost use Rattle.bng_term.specs.Lifetimes.{Life, HasAllowedInterval, leased, cause_of, deadline_of, changed, seen, interim_of, reported};
ghost use Rattle.bng_term.specs.Runs.{Event, after, last_of, packets, is_due};

use crate::limits::Limits;
use crate::timeout;
use std::marker::Model;

// Values of Acct-Terminate-Cause (RFC 2866 section 5.10).
const IDLE_TIMEOUT: u8 = 4;

const SESSION_TIMEOUT: u8 = 5;

/// How long a term lasts. Clauses see its limits, the moment of its lease, that up to which it knows of packets and that of
/// its last Interim, or of the lease where there was none. Moments are in milliseconds, below 2^60.
#[derive(Clone, Copy)]
pub struct Lifetime {
    limits: Limits,
    began: u64,
    idle_from: u64,
    last_report: u64,
}

impl Model for Lifetime {
    ghost use Rattle.std.specs.Prelude.{◌<◌, ◌^◌};
    ghost use Rattle.bng_term.specs.Lifetimes.{Life, HasAllowedInterval};

    ghost Value = { Life };

    ghost view = { λ l. record { limits = l.limits; began = l.began; idle_from = l.idle_from; last_report = l.last_report } };

    ghost inverse = { λ t. record { limits = t.limits; began = t.began; idle_from = t.idle_from; last_report = t.last_report } };

    ghost invariant = { λ l. (l.began < 2 ^ 60) × (l.idle_from < 2 ^ 60) × (l.last_report < 2 ^ 60) × HasAllowedInterval l.limits };
}

impl Lifetime {
    /// A term that begins with its lease at that moment. Condition: an Acct-Interim-Interval is at least 60 seconds.
    pub fn new(limits: Limits, now: u64) -> Lifetime
        requires moment { now < 2 ^ 60 }
        requires interval { HasAllowedInterval limits }
        ensures { result ≡ leased limits now }
    {
        Lifetime {
            limits,
            began: now,
            idle_from: now,
            last_report: now,
        }
    }

    /// The moment of the lease.
    pub fn began(&self) -> u64
        ensures moment { result ≡ self.now.began }
        ensures low { result < 2 ^ 60 }
    {
        self.began
    }

    /// How long the term lasts, and how far apart its Interims are.
    pub fn limits(&self) -> Limits
        ensures limits { result ≡ self.now.limits }
        ensures allowed { HasAllowedInterval result }
    {
        self.limits
    }

    /// The first moment at which the term has to be looked at. None exactly where it has neither timeout. An Interim is no
    /// reason for one.
    pub fn deadline(&self) -> Option<u64>
        ensures earliest { result ≡ deadline_of self.now }
        ensures none { (result ≡ None) ↔ ((self.now.limits.session_timeout ≡ 0) × (self.now.limits.idle_timeout ≡ 0)) }
    {
        timeout::earliest(
            timeout::over_at(self.limits.idle_timeout, self.idle_from),
            timeout::over_at(self.limits.session_timeout, self.began),
        )
    }

    /// The cause with which the term ends at that moment, if one holds: 4 (Idle Timeout), else 5 (Session Timeout). `passed`
    /// is the moment of the last packet that passed, or of the lease where none did. Where the term goes on it knows of
    /// packets up to `passed`.
    pub fn look(&mut self, now: u64, passed: u64) -> Option<u8>
        requires { passed < 2 ^ 60 }
        ensures cause { result ≡ cause_of self.old.limits self.old.began passed now }
        ensures goes_on { IfNone result (self.new ≡ seen self.old passed) }
        ensures ended { OnSome result (self.new ≡ self.old) }
        // So the term is where the definition is after each list of events.
        ensures history { (life : Life) (lease : ℕ) (events : List Event) → self.old ≡ after life lease events
            → passed ≡ last_of lease (packets events) → self.new ≡ after life lease (events ++ Event.Look now ∷ []) }
    {
        let cause = self.cause_at(now, passed);
        if cause.is_none() {
            self.idle_from = self.idle_from.max(passed);
        }
        cause
    }

    fn cause_at(&self, now: u64, passed: u64) -> Option<u8>
        requires { passed < 2 ^ 60 }
        ensures { result ≡ cause_of self.now.limits self.now.began passed now }
    {
        if timeout::is_over(self.limits.idle_timeout, passed, now) {
            Some(IDLE_TIMEOUT)
        } else if timeout::is_over(self.limits.session_timeout, self.began, now) {
            Some(SESSION_TIMEOUT)
        } else {
            None
        }
    }

    /// The moment from which on an Interim is due, counted from the last one or from the lease.
    pub fn interim_at(&self) -> Option<u64>
        ensures { result ≡ interim_of self.now }
    {
        match self.limits.interim {
            Some(seconds) => Some(timeout::seconds_after(seconds, self.last_report)),
            None => None,
        }
    }

    /// Whether an Interim is due at that moment.
    pub fn interim_due(&self, now: u64) -> bool
        ensures came { IsTrue result ↔ IsSomeAnd (interim_of self.now) (λ at. at ≤ now) }
        ensures test { result ≡ is_due self.now now }
    {
        match self.interim_at() {
            Some(at) => at <= now,
            None => false,
        }
    }

    /// An Interim is taken at that moment, whether or not a record of it can be formed.
    pub fn report(&mut self, now: u64)
        requires { now < 2 ^ 60 }
        ensures moment { self.new ≡ reported self.old now }
        ensures history { (life : Life) (lease : ℕ) (events : List Event) → self.old ≡ after life lease events
            → self.new ≡ after life lease (events ++ Event.Report now ∷ []) }
    {
        self.last_report = now;
    }

    /// Other limits, as by a CoA-Request. What they count from stays. Condition: that of `new`.
    pub fn change(&mut self, limits: Limits)
        requires { HasAllowedInterval limits }
        ensures limits { self.new ≡ changed self.old limits }
        ensures history { (life : Life) (lease : ℕ) (events : List Event) → self.old ≡ after life lease events
            → self.new ≡ after life lease (events ++ Event.Change limits ∷ []) }
    {
        self.limits = limits;
    }
}

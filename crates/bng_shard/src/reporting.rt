//! The Interims that a shard hands out (RFC 2869 section 5.16).
ghost use Rattle.std.specs.Prelude.{Some, IsSome, ◌⊎◌, drop, slice_get, IfSome, IfNone, ◌≡◌, ◌≤◌, ◌<◌, ◌+◌, ◌^◌, [], option_map};
ghost use Rattle.bng_engine.specs.Lists.{AnyOf};
ghost use Rattle.bng_steps.specs.Interims.{AwaitsInterims, owed, row_in, row_told, with_report};
ghost use Rattle.bng_steps.specs.Protocol.{SaysOf, key_of};
ghost use Rattle.bng_steps.specs.declared.session.Session.{Session};
ghost use Rattle.bng_sessions.specs.Sessions.{value_at};

use crate::shard::Shard;
use bng_base::SessionNo;
use bng_steps::{ReportedTerm, Reports, Survey};

impl Shard {
    /// Hands out the live term of the lowest session number whose Interim (RFC 2869 section 5.16) is due at this moment, in milliseconds, and
    /// takes that Interim: the next one counts from this moment. None exactly where none is due. Which were taken is kept in `reports`, which
    /// is this shard's alone. Until one may be due it looks at no session, unless requests for changes were answered that were not told yet:
    /// they may have brought one forward. It is called once the Stops of a round were formed.
    pub fn interim(&self, reports: &mut Reports, now: u64) -> Option<ReportedTerm>
        requires moment { now < 2 ^ 60 }
        requires awaits { self.now.state.changed ≡ [] → AwaitsInterims self.now.state.slots reports.old }
        ensures first { option_map row_told result ≡ slice_get (owed self.now reports.old.last now) 0 }
        ensures rest { owed self.now reports.new.last now ≡ drop 1 (owed self.now reports.old.last now) }
        ensures taken { IfSome result (λ t. reports.new.last ≡ with_report reports.old.last now t.term.term.session) }
        ensures kept { IfNone result (reports.new.last ≡ reports.old.last) }
        ensures says { IfSome result (λ t. AnyOf (SaysOf t.term.user.items t.term.class.items t.term.began (key_of t.term)) self.now.state.slots.terms) }
        ensures awaits { self.now.state.changed ≡ [] → AwaitsInterims self.now.state.slots reports.new }
        ensures all { IfNone result (AwaitsInterims self.now.state.slots reports.new) }
        ensures soon { (reports.new.next ≡ reports.old.next) ⊎ (reports.new.next ≤ now + 60000) }
    {
        if !self.may_report(reports, now) {
            return None;
        }
        match self.body.served.survey(reports, now) {
            Survey::Owes(number) => {
                let told = self.told_of(number);
                reports.note(number, now);
                Some(told)
            }
            Survey::None { until } => {
                reports.wait_until(until);
                None
            }
        }
    }

    // The live term of the session with this number, which has one, and what it carried so far.
    fn told_of(&self, number: SessionNo) -> ReportedTerm
        requires { (x : Session) × (value_at self.now.state.slots.sessions number.0 ≡ Some x) × (x.number ≡ number) × IsSome x.lease }
        ensures row { (x : Session) → value_at self.now.state.slots.sessions number.0 ≡ Some x → row_in self.now.rows x ≡ Some (row_told result) }
        ensures session { result.term.term.session ≡ number }
        ensures says { AnyOf (SaysOf result.term.user.items result.term.class.items result.term.began (key_of result.term)) self.now.state.slots.terms }
    {
        let body = &*self.body;
        let Some(session) = body.served.get(number) else {
            unreachable!();
        };
        let Some(lease) = session.lease() else {
            unreachable!();
        };
        body.terms.are_rising();
        let Some(told) = body.terms.told_of(lease.serial) else {
            unreachable!();
        };
        told
    }
}

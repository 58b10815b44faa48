//! Where a shard keeps its sessions.
ghost use Rattle.std.specs.Prelude.{◌≡◌, ◌<◌, ◌≤◌, ℕ, Bool, Option as Maybe, Some, None as Nothing, IsSome, IfSome, IfNone, find, true};
ghost use Rattle.std.specs.Option.{option_copied};
ghost use Rattle.bng_sessions.specs.Sessions.{IsEarliest, IsLowestVacant, IsNumberOf, NoneShares, Sessions, read_at, used, value_at, with_value, without};
ghost use Rattle.bng_sessions.specs.Listed.{values};
ghost use Rattle.bng_steps.specs.Indexed.{address_of, term_of};
ghost use Rattle.bng_steps.specs.State.{circuit_of, leases};
ghost use Rattle.bng_steps.specs.Timers.{deadline_of};
ghost use Rattle.bng_steps.specs.declared.session.Session.{Session as Seen};

use crate::session::Session;
use bng_base::{Ip4, SessionNo};

/// The sessions of a shard by number. A store that finds the holder of an address by an index may ask that no two have one.
pub trait Store: Drop {
    ghost sessions: { Self → Sessions Seen };

    ghost unique: { Bool };

    /// The shard's number.
    fn shard(&self) -> u16
        ensures number { result ≡ (sessions self.now).shard }
        ensures range { result < 64 };

    /// How many there are.
    fn count(&self) -> u32
        ensures used { result ≡ used (sessions self.now) }
        ensures few { result ≤ 1022 };

    /// The session with this number.
    fn get(&self, number: SessionNo) -> Option<&Session>
        ensures { option_copied result ≡ value_at (sessions self.now) number.0 };

    /// The lowest number of the shard that is not used.
    fn vacant(&self) -> Option<SessionNo>
        ensures lowest { IfSome result (λ n. IsLowestVacant (sessions self.now) n.0) }
        ensures all { IfNone result ((n : ℕ) → IsNumberOf (sessions self.now).shard n → IsSome (value_at (sessions self.now) n)) };

    /// The session whose live term has this address; of several that of the lowest number.
    fn holder(&self, address: Ip4) -> Option<&Session>
        ensures { option_copied result ≡ find (leases address) (values (sessions self.now)) };

    /// The earliest deadline in milliseconds, with the lowest number of those that have it; none exactly where there is no deadline.
    fn earliest(&self) -> Option<(u64, SessionNo)>
        ensures first { IfSome result (λ e. IsEarliest deadline_of (sessions self.now) e.0 e.1.0) }
        ensures none { IfNone result ((n : ℕ) → read_at deadline_of (sessions self.now) n ≡ Nothing) };

    /// Puts a session at a number that is not used. No other has its circuit or its term, nor its address, where that is asked.
    fn put(&mut self, number: SessionNo, session: Session)
        requires number { IsNumberOf (sessions self.old).shard number.0 }
        requires vacant { value_at (sessions self.old) number.0 ≡ Nothing }
        requires circuit { NoneShares (λ (x : Seen). Some (circuit_of x)) (sessions self.old) session }
        requires term { NoneShares term_of (sessions self.old) session }
        requires address { unique ≡ true → NoneShares address_of (sessions self.old) session }
        ensures { sessions self.new ≡ with_value (sessions self.old) number.0 session };

    /// Takes a session out, where there is one.
    fn remove(&mut self, number: SessionNo) -> Option<Session>
        ensures value { result ≡ value_at (sessions self.old) number.0 }
        ensures after { sessions self.new ≡ without (sessions self.old) number.0 };
}

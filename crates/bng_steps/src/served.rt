//! The sessions of a shard, and its tunnels beside them.
ghost use Rattle.std.specs.Prelude.{◌≡◌, ◌≢◌, ◌+◌, ◌<◌, ◌≤◌, ◌^◌, ◌∷◌, [], ℕ, IsSome, Some, None as Nothing, true, false, IfOk, IfSome, IfNone, slice_set};
ghost use Rattle.std.specs.List.{AllPairs, All};
ghost use Rattle.std.specs.FinMap.{empty};
ghost use Rattle.bng_sessions.specs.Sessions.{value_at, without, IsNumberOf};
ghost use Rattle.bng_steps.specs.Metered.{meters_at};
ghost use Rattle.bng_steps.specs.Opening.{circuit_at, opened_slots, provisioned as provisioned_at};
ghost use Rattle.bng_steps.specs.Indexed.{address_of};
ghost use Rattle.bng_steps.specs.Passing.{passed_at, place_in, with_passed};
ghost use Rattle.bng_sessions.specs.Sessions.{NoneShares};
ghost use Rattle.bng_steps.specs.Serving.{AreOwn, KeepsLease};
ghost use Rattle.bng_steps.specs.State.{count_in, reaped, with_session};
ghost use Rattle.bng_steps.specs.Timers.{stays_at};

use crate::leaving::list_leaving;
use crate::limits::NO_LIMITS;
use crate::meters::{Meters, opened_meters};
use crate::questions::{list, unlist};
use crate::session::{Lease, Service, Session};
use crate::store::Store;
use crate::way::Way;
use crate::young::{list_young, unlist_young};
use bng_base::{Profile, SessionNo, Static};
use bng_lns::Tunnels;
use bng_term::Lifetime;
use std::alloc::{AllocError, Global};
use std::marker::Model;

/// The sessions of a shard by number, provisioned circuits among them; how many terms began, how many questions were asked, by session
/// number the moment in milliseconds at which its last packet passed and its meters, the numbers of the sessions that have ended and leave
/// at the settlement, of those whose question has no verdict yet, and of those for which a request may come again. And the tunnels.
pub struct Served<S: Store> {
    pub sessions: S,
    pub begun: u64,
    pub question_count: u64,
    pub passed: Vec<u64>,
    pub meters: Vec<Meters>,
    pub leaving: Vec<SessionNo>,
    pub asking: Vec<SessionNo>,
    pub young: Vec<SessionNo>,
    pub tunnels: Tunnels,
}

impl<S: Store> Drop for Served<S> {
    fn drop(self) {
        let Served {
            sessions: _,
            begun: _,
            question_count: _,
            passed: _,
            meters: _,
            leaving: _,
            asking: _,
            young: _,
            tunnels: _,
        } = self;
    }
}

impl<S: Store> Model for Served<S> {
    ghost use Rattle.std.specs.Prelude.{[], vec_capacity};
    ghost use Rattle.bng_steps.specs.State.{State};
    ghost use Rattle.bng_steps.specs.Serving.{Keeps};
    ghost use Rattle.bng_steps.specs.Codes.{state_code};

    ghost Value = { State };

    ghost coded = { state_code };

    ghost view = { λ a. record { sessions = S.sessions a.sessions; begun = a.begun; question_count = a.question_count; terms = []; news = []; passed = a.passed.items; meters = a.meters.items; tunnels = a.tunnels } };

    ghost invariant = { λ a. Keeps S.unique (S.sessions a.sessions) a.leaving.items (vec_capacity a.leaving) a.asking.items (vec_capacity a.asking) a.young.items (vec_capacity a.young) a.passed.items a.meters.items };
}

/// So many session numbers are a shard's, from 1 past 1,024 times the shard's number on (`SessionNo`).
pub const NUMBERS: u16 = 1022;

/// By this a session number is told from those of other shards.
pub const SPAN: u16 = 1024;

/// The circuit with this session number.
pub fn circuit_with(circuits: &[Static], session: SessionNo) -> Option<&Static>
    requires apart { AllPairs (λ a b. a.session ≢ b.session) circuits.now }
    ensures found { IfSome result (λ c. circuit_at circuits.now session.0 ≡ c.now ∷ []) }
    ensures none { IfNone result (circuit_at circuits.now session.0 ≡ []) }
{
    circuits.iter().find(|c| c.session.0 == session.0)
}

/// Whether an Interim is due: of the session with this number first, or of none before that moment, in milliseconds.
#[derive(Clone, Copy)]
pub enum Survey {
    Owes(SessionNo),
    None { until: u64 },
}

// The session of a provisioned circuit, whose term has this number and began at this moment, in milliseconds.
fn provisioned(circuit: &Static, serial: u64, now: u64) -> Session
    requires moment { now < 2 ^ 60 }
    ensures { result ≡ provisioned_at now circuit.now serial }
{
    Session {
        number: circuit.session,
        way: Way::Port {
            port: circuit.port,
            mac: circuit.mac,
        },
        service: Service::Provisioned { ended: false },
        lease: Some(Lease {
            serial,
            address: circuit.address,
            profile: circuit.profile,
            life: Lifetime::new(NO_LIMITS, now),
        }),
    }
}

impl<S: Store> Served<S> {
    /// The sessions of these circuits, whose numbers are the shard's, and no tunnel. Their terms are numbered from 1 on, by rising session
    /// number, and are metered by their profiles from this moment on, in milliseconds.
    pub fn open(
        alloc: Global,
        mut sessions: S,
        number: u16,
        profiles: &[Profile],
        circuits: &[Static],
        now: u64,
    ) -> Result<Served<S>, AllocError>
        requires empty { S.sessions sessions ≡ record { shard = number; by_number = empty } }
        requires moment { now < 2 ^ 60 }
        requires number { number < 64 }
        requires own { All (λ c. IsNumberOf number c.session.0) circuits.now }
        requires sessions { AllPairs (λ a b. a.session ≢ b.session) circuits.now }
        requires addresses { S.unique ≡ true → AllPairs (λ a b. a.address ≢ b.address) circuits.now }
        ensures opened { IfOk result (λ s. s ≡ record (opened_slots number profiles.now circuits.now now) { terms = [] }) }
    {
        let passed = Vec::from_elem(alloc, 0, usize::from(SPAN))?;
        let meters = opened_meters(alloc, number, profiles, circuits, now)?;
        let leaving = Vec::with_capacity(alloc, usize::from(NUMBERS) + 1)?;
        let asking = Vec::with_capacity(alloc, usize::from(NUMBERS) + 1)?;
        let young = Vec::with_capacity(alloc, usize::from(NUMBERS) + 1)?;
        let tunnels = Tunnels::open(alloc, number)?;
        let mut begun = 0;
        let first = number * 1024 + 1;
        for n in first..first + NUMBERS {
            if let Some(circuit) = circuit_with(circuits, SessionNo(n)) {
                begun += 1;
                sessions.put(SessionNo(n), provisioned(circuit, begun, now));
            }
        }
        Ok(Served {
            sessions,
            begun,
            question_count: 0,
            passed,
            meters,
            leaving,
            asking,
            young,
            tunnels,
        })
    }

    pub fn shard(&self) -> u16
        ensures number { result ≡ self.now.sessions.shard }
        ensures numbers { AreOwn self.now.sessions }
        ensures range { result < 64 }
        ensures own { (n : ℕ) → IsSome (value_at self.now.sessions n) → IsNumberOf self.now.sessions.shard n }
    {
        self.sessions.shard()
    }

    /// How many sessions there are, provisioned circuits among them.
    pub fn count(&self) -> u32
        ensures count { result ≡ count_in self.now }
        ensures few { result ≤ 1022 }
    {
        self.sessions.count()
    }

    /// How many terms began.
    pub fn begun(&self) -> u64
        ensures { result ≡ self.now.begun }
    {
        self.begun
    }

    /// How many questions were asked.
    pub fn question_count(&self) -> u64
        ensures { result ≡ self.now.question_count }
    {
        self.question_count
    }

    /// So many questions were asked.
    pub fn count_questions(&mut self, question_count: u64)
        ensures { self.new ≡ record self.old { question_count = question_count } }
    {
        self.question_count = question_count;
    }

    /// One term more begins. Answers its number.
    pub fn count_begun(&mut self) -> u64
        requires few { self.old.begun + 1 < 2 ^ 48 }
        ensures number { result ≡ self.old.begun + 1 }
        ensures after { self.new ≡ record self.old { begun = self.old.begun + 1 } }
    {
        self.begun += 1;
        self.begun
    }

    /// The moment at which a packet of the session with this number passed last, in milliseconds; 0 before the first.
    pub fn passed_at(&self, number: SessionNo) -> u64
        ensures moment { result ≡ passed_at self.now.passed number }
        ensures low { result < 2 ^ 60 }
    {
        self.passed[usize::from(number.0 % SPAN)]
    }

    /// The meters of the session with this number.
    pub fn meters_at(&self, number: SessionNo) -> Meters
        ensures { result ≡ meters_at self.now.meters number }
    {
        self.meters[usize::from(number.0 % SPAN)]
    }

    /// A packet of the session with this number passed at this moment, in milliseconds, and left it these meters.
    pub fn note_passed(&mut self, number: SessionNo, now: u64, meters: Meters)
        requires moment { now < 2 ^ 60 }
        ensures { self.new ≡ with_passed self.old number now meters }
    {
        let place = usize::from(number.0 % SPAN);
        self.passed[place] = now;
        self.meters[place] = meters;
    }

    /// A term of the session with this number begins, with these meters.
    pub fn start_meters(&mut self, number: SessionNo, meters: Meters)
        ensures { self.new ≡ record self.old { meters = slice_set self.old.meters (place_in number) meters } }
    {
        self.meters[usize::from(number.0 % SPAN)] = meters;
    }

    /// Takes a session out that has not ended. No other has its address.
    pub fn take(&mut self, number: SessionNo) -> Session
        requires { stays_at self.old number.0 ≡ true }
        ensures value { Some result ≡ value_at self.old.sessions number.0 }
        ensures number { result.number ≡ number }
        ensures of_shard { IsNumberOf self.old.sessions.shard number.0 }
        ensures after { self.new ≡ record self.old { sessions = without self.old.sessions number.0 } }
        ensures apart { S.unique ≡ true → NoneShares address_of self.new.sessions result }
        ensures leased { KeepsLease result.service result.lease }
    {
        let Some(session) = self.sessions.remove(number) else {
            unreachable!()
        };
        unlist(&mut self.asking, &session);
        unlist_young(&mut self.young, &session);
        session
    }

    /// Puts a session at its number, which is the shard's and not used. No other has its address.
    pub fn put(&mut self, session: Session)
        requires number { IsNumberOf self.old.sessions.shard session.number.0 }
        requires vacant { value_at self.old.sessions session.number.0 ≡ Nothing }
        requires apart { S.unique ≡ true → NoneShares address_of self.old.sessions session }
        requires leased { KeepsLease session.service session.lease }
        ensures { self.new ≡ with_session self.old session.number.0 session }
    {
        let number = session.number;
        list_leaving(&mut self.leaving, &session);
        list(&mut self.asking, &session);
        list_young(&mut self.young, &session);
        self.sessions.put(number, session);
    }

    /// Whether a session has ended that is still there.
    pub fn has_leaving(&self) -> bool
        ensures none { result ≡ false → (reaped self.now).sessions ≡ self.now.sessions }
        ensures some { result ≡ true → (reaped self.now).sessions ≢ self.now.sessions }
    {
        !self.leaving.as_slice().is_empty()
    }

    /// Lets the sessions that ended leave.
    pub fn settle(&mut self)
        ensures { self.new ≡ record self.old { sessions = (reaped self.old).sessions } }
    {
        while let Some(number) = self.leaving.pop() {
            self.sessions.remove(number);
        }
    }
}

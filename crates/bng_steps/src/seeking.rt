//! What is found among the sessions of a shard, by number, circuit, address, question or deadline.
ghost use Rattle.std.specs.Prelude.{◌≡◌, ◌<◌, ◌^◌, [], ℕ, List, IsSome, Some, true, false, IfSome, IfNone, drop, option_map, slice_get};
ghost use Rattle.std.specs.Option.{option_and_then, option_copied};
ghost use Rattle.bng_sessions.specs.Sessions.{value_at, IsNumberOf};
ghost use Rattle.bng_steps.specs.Discovery.{IsVacancy, repeated};
ghost use Rattle.bng_steps.specs.Due.{sessions_due};
ghost use Rattle.bng_steps.specs.Interims.{interim_at};
ghost use Rattle.bng_steps.specs.declared.session.Session.{Session as Seen};
ghost use Rattle.bng_steps.specs.Surveying.{AreSpaced, IsSurveyed};
ghost use Rattle.bng_steps.specs.Questions.{asking_from, handed_after, open_number_at, place_of, waiting};
ghost use Rattle.bng_steps.specs.State.{call_of, holder_of, session_at, session_of};
ghost use Rattle.bng_steps.specs.Cutting.{is_cut};
ghost use Rattle.bng_steps.specs.Listing.{does_pass};
ghost use Rattle.bng_steps.specs.Timers.{IsFirstDue, IsLowest, NoneIsDue, NoneStays};

use crate::interims::{LEAST, Reports, interim_at};
use crate::questions::{Handed, copied, lowest_waiting};
use crate::served::{NUMBERS, Served, Survey};
use crate::session::Session;
use crate::store::Store;
use crate::young::lowest_repeated;
use bng_base::{Ip4, Mac, Peer, SessionNo, TunnelNo};
use bng_verdict::{AuthAsk, QuestionNo};

impl<S: Store> Served<S> {
    /// The number of the open question of the session with this number.
    pub fn open_number(&self, number: SessionNo) -> Option<u64>
        ensures { result ≡ open_number_at self.now number.0 }
    {
        let question = self.sessions.get(number)?.question()?;
        Some(question.number)
    }

    /// The first open question, by session number, that was not handed out yet.
    pub fn first_waiting(&self, handed: &Handed) -> Option<AuthAsk>
        ensures first { option_map asking_from result ≡ slice_get (waiting self.now handed.now) 0 }
        ensures own { IfSome result (λ a. IsNumberOf self.now.sessions.shard a.number.session.0) }
        ensures place { IfSome result (λ a. place_of a.number.session < 1022) }
        ensures rest { IfSome result (λ a. waiting self.now (handed_after handed.now a.number) ≡ drop 1 (waiting self.now handed.now)) }
    {
        prove!(handed.numbers() == 1022);
        let number = lowest_waiting(self.asking.as_slice(), &self.sessions, handed)?;
        let session = self.sessions.get(number)?;
        let question = session.question()?;
        Some(AuthAsk {
            number: QuestionNo {
                session: session.number,
                ask: question.number,
            },
            circuit: session.own_circuit(),
            credentials: copied(&question.credentials),
        })
    }

    /// Whether a session has an open question, handed out or not.
    pub fn has_open(&self) -> bool
        ensures none { result ≡ false → (handed : List ℕ) → waiting self.now handed ≡ [] }
        ensures some { result ≡ true → (n : ℕ) × IsSome (open_number_at self.now n) }
    {
        !self.asking.as_slice().is_empty()
    }

    /// The session with this number.
    pub fn get(&self, number: SessionNo) -> Option<&Session>
        ensures { option_copied result ≡ value_at self.now.sessions number.0 }
    {
        self.sessions.get(number)
    }

    /// The earliest deadline of the sessions, in milliseconds; none exactly where no session has one.
    pub fn sessions_due(&self) -> Option<u64>
        ensures { result ≡ sessions_due self.now }
    {
        let (deadline, _) = self.sessions.earliest()?;
        Some(deadline)
    }

    /// The session whose deadline comes first among those that are due; none exactly where none is due.
    pub fn first_due(&self, now: u64) -> Option<SessionNo>
        ensures found { IfSome result (λ n. IsFirstDue self.now now n.0) }
        ensures none { IfNone result (NoneIsDue self.now now) }
    {
        let (deadline, number) = self.sessions.earliest()?;
        if deadline <= now { Some(number) } else { None }
    }

    /// The session of a frame: on this port, of this MAC, with this number.
    pub fn session_of(&self, port: u8, mac: Mac, number: SessionNo) -> Option<&Session>
        ensures { option_copied result ≡ session_of self.now port mac number.0 }
    {
        let session = self.sessions.get(number)?;
        if session.is_on(port, mac) {
            Some(session)
        } else {
            None
        }
    }

    /// The number of that session, if it is there.
    pub fn numbered_on(&self, port: u8, mac: Mac, number: SessionNo) -> Option<SessionNo>
        ensures { session_at self.now result ≡ session_of self.now port mac number.0 }
    {
        match self.session_of(port, mac, number) {
            Some(_) => Some(number),
            None => None,
        }
    }

    /// The session of a message or a PPP frame of a call: of the tunnel with this number, of this peer, with this Session ID.
    pub fn call_of(&self, from: Peer, tunnel: u16, number: SessionNo) -> Option<&Session>
        ensures { option_copied result ≡ call_of self.now from tunnel number.0 }
    {
        let session = self.sessions.get(number)?;
        if session.is_over(from, tunnel) {
            Some(session)
        } else {
            None
        }
    }

    /// The number of that session, if it is there.
    pub fn numbered_over(&self, from: Peer, tunnel: u16, number: SessionNo) -> Option<SessionNo>
        ensures { session_at self.now result ≡ call_of self.now from tunnel number.0 }
    {
        match self.call_of(from, tunnel, number) {
            Some(_) => Some(number),
            None => None,
        }
    }

    /// The session with a number, if there is one.
    pub fn session_at(&self, number: Option<SessionNo>) -> Option<&Session>
        ensures { option_copied result ≡ session_at self.now number }
    {
        match number {
            Some(number) => self.sessions.get(number),
            None => None,
        }
    }

    /// Whether the session with this number is a call of that tunnel, and has not ended.
    pub fn is_cut(&self, number: SessionNo, tunnel: TunnelNo) -> bool
        ensures { result ≡ does_pass (is_cut tunnel.0) (value_at self.now.sessions number.0) }
    {
        match self.sessions.get(number) {
            Some(session) => session.is_cut(tunnel.0),
            None => false,
        }
    }

    /// The session that has an address.
    pub fn holder_of(&self, address: Ip4) -> Option<&Session>
        ensures { option_copied result ≡ holder_of self.now address }
    {
        self.sessions.holder(address)
    }

    /// The lowest number that is not used.
    pub fn vacant(&self) -> Option<SessionNo>
        ensures { IsVacancy self.now (option_map (λ n. n.0) result) }
    {
        self.sessions.vacant()
    }

    /// The number of the session that was made for the same request before (RFC 2516 section 5.4).
    pub fn repeated(&self, port: u8, mac: Mac, asked: Option<&[u8]>) -> Option<SessionNo>
        ensures { result ≡ option_map (λ x. x.number) (repeated self.now port mac (option_map (λ o. o.now) asked.entry)) }
    {
        lowest_repeated(self.young.as_slice(), &self.sessions, port, mac, asked)
    }

    /// The lowest session number of those that have not ended; none exactly where all have.
    pub fn lowest_staying(&self) -> Option<SessionNo>
        ensures found { IfSome result (λ n. IsLowest self.now n.0) }
        ensures none { IfNone result (NoneStays self.now) }
    {
        let first = self.sessions.shard() * 1024 + 1;
        for n in first..first + NUMBERS {
            let number = SessionNo(n);
            if let Some(session) = self.sessions.get(number) {
                if !session.has_ended() {
                    return Some(number);
                }
            }
        }
        None
    }

    /// Looks for an Interim that is due at this moment, in milliseconds: of those sessions that owe one it is that of the lowest number. It
    /// looks at all sessions.
    pub fn survey(&self, reports: &Reports, now: u64) -> Survey
        requires moment { now < 2 ^ 60 }
        ensures { IsSurveyed self.now reports.now.last now result }
    {
        let first = self.sessions.shard() * 1024 + 1;
        let mut until = now + LEAST;
        for n in first..first + NUMBERS {
            let number = SessionNo(n);
            if let Some(at) = self.interim_at(number, reports) {
                if at <= now {
                    return Survey::Owes(number);
                }
                until = until.min(at);
            }
        }
        Survey::None { until }
    }

    // The moment from which on an Interim of the session with this number is due.
    fn interim_at(&self, number: SessionNo, reports: &Reports) -> Option<u64>
        ensures moment { result ≡ option_and_then (interim_at reports.now.last) (value_at self.now.sessions number.0) }
        ensures spaced { (x : Seen) → value_at self.now.sessions number.0 ≡ Some x → AreSpaced x.lease }
    {
        interim_at(self.sessions.get(number)?, reports)
    }
}

//! What a shard shows of its terms and sessions, of its sums and of what waits in it.
ghost use Rattle.std.specs.Prelude.{ℕ, Bool, List, [], IsSome, IfSome, IfNone, ◌≡◌, ◌≢◌, ◌≤◌, ◌<◌, ◌^◌, true, false, drop, slice_get, length, nat_le, option_map, not, ◌||◌};
ghost use Rattle.bng_engine.specs.Books.{book_at};
ghost use Rattle.bng_engine.specs.Lists.{AnyOf};
ghost use Rattle.bng_engine.specs.Quantities.{Quantity, in_book};
ghost use Rattle.bng_engine.specs.Views.{row_keys};
ghost use Rattle.bng_steps.specs.Interims.{AwaitsInterims, are_none, owed};
ghost use Rattle.bng_steps.specs.Live.{live_in};
ghost use Rattle.bng_steps.specs.Protocol.{SaysOf, deadline_of, ended_terms, key_of, row_at, sessions_of};
ghost use Rattle.bng_steps.specs.Questions.{asking_from, handed_after, open_number_at, waiting};
ghost use Rattle.bng_steps.specs.State.{reaped};
ghost use Rattle.bng_steps.specs.Sums.{traffic_in};
ghost use Rattle.bng_sessions.specs.Sessions.{IsNumberOf};

use crate::shard::Shard;
use bng_base::{Book, Ip4};
use bng_steps::{Handed, LiveTerm, Reports, Traffic};
use bng_verdict::AuthAsk;

impl Shard {
    /// How many terms may begin in the round that is going on, or was held last.
    pub fn allowance(&self) -> u32
        ensures { result ≡ self.now.allowance }
    {
        self.body.allowance
    }

    /// How many terms began, from the opening on.
    pub fn begun(&self) -> u64
        ensures { result ≡ self.now.state.slots.begun }
    {
        self.body.served.begun()
    }

    /// How many sessions there are, provisioned circuits among them.
    pub fn sessions(&self) -> u32
        ensures { result ≡ sessions_of self.now.state }
    {
        self.body.served.count()
    }

    /// The earliest deadline of its sessions and its tunnels, in milliseconds; none exactly where none has one.
    pub fn due(&self) -> Option<u64>
        ensures { result ≡ deadline_of self.now.state }
    {
        self.body.served.due()
    }

    /// What passed under the profile at this place, from 0, of those of the rules, and was not taken off.
    pub fn book(&self, profile: u8) -> Book
        requires { profile < length self.now.state.rules.profiles }
        ensures book { result ≡ book_at profile self.now.books }
        ensures number { length self.now.books ≡ length self.now.state.rules.profiles }
    {
        self.body.profiles.book(profile)
    }

    /// What the term that has this address carried; none exactly where no term has it.
    pub fn carried(&self, address: Ip4) -> Option<Traffic>
        ensures { result ≡ option_map traffic_in (row_at self.now.rows address) }
    {
        self.body.terms.carried_by(address)
    }

    /// The octets and the packets that the terms that are there, those of which no Stop was handed out yet, carried together: from
    /// their subscribers (input) and towards them (output). Each sum is below 2^64.
    pub fn live(&self) -> Book
        requires low { (q : Quantity) (input : Bool) → in_book q input (live_in self.now.rows) < 2 ^ 64 }
        ensures { result ≡ live_in self.now.rows }
    {
        self.body.terms.live()
    }

    /// The term at this place, from 0, of those that are there, by their numbers: which it is, its circuit and its address. One that
    /// has ended is there until it is handed out by `reap`. None exactly past the last.
    pub fn term(&self, place: usize) -> Option<LiveTerm>
        ensures keys { option_map key_of result ≡ slice_get (row_keys self.now.rows) place }
        ensures says { IfSome result (λ t. AnyOf (SaysOf t.user.items t.class.items t.began (key_of t)) self.now.state.slots.terms) }
    {
        self.body.terms.term_at(place)
    }

    /// Hands out the open question of the lowest session number that was not handed out yet; none exactly where there is none. Which
    /// were handed out is kept in `handed`, which is this shard's alone.
    pub fn asked(&self, handed: &mut Handed) -> Option<AuthAsk>
        ensures first { option_map asking_from result ≡ slice_get (waiting self.now.state.slots handed.old) 0 }
        ensures own { IfSome result (λ a. IsNumberOf self.now.number a.number.session.0) }
        ensures rest { waiting self.now.state.slots handed.new ≡ drop 1 (waiting self.now.state.slots handed.old) }
        ensures handed { IfSome result (λ a. handed.new ≡ handed_after handed.old a.number) }
        ensures kept { IfNone result (handed.new ≡ handed.old) }
    {
        let ask = self.body.served.first_waiting(handed)?;
        handed.note(ask.number);
        Some(ask)
    }

    /// Whether a session has an open question: `asked` hands out none where none has.
    pub fn has_open(&self) -> bool
        ensures none { result ≡ false → (handed : List ℕ) → waiting self.now.state.slots handed ≡ [] }
        ensures some { result ≡ true → (n : ℕ) × IsSome (open_number_at self.now.state.slots n) }
    {
        self.body.served.has_open()
    }

    /// Whether there is a term of whose beginning no Start was formed yet: `fresh` hands out none exactly where there is none.
    pub fn has_news(&self) -> bool
        ensures none { result ≡ false → self.now.state.slots.news ≡ [] }
        ensures some { result ≡ true → self.now.state.slots.news ≢ [] }
    {
        self.body.terms.has_news()
    }

    /// Whether an Interim may be due at this moment, in milliseconds: `interim` hands out none where none may be. Which were taken is kept
    /// in `reports`, which is this shard's alone. Where requests for changes were answered that were not told yet, one may be.
    pub fn may_report(&self, reports: &Reports, now: u64) -> bool
        requires moment { now < 2 ^ 60 }
        requires awaits { self.now.state.changed ≡ [] → AwaitsInterims self.now.state.slots reports.now }
        ensures may { result ≡ (not (are_none self.now.state.changed) || nat_le reports.now.next now) }
        ensures awaits { result ≡ false → AwaitsInterims self.now.state.slots reports.now }
        ensures none { result ≡ false → owed self.now reports.now.last now ≡ [] }
    {
        let answered = self.has_changed();
        let comes = reports.may_be_due(now);
        answered || comes
    }

    /// Whether requests for changes were answered that were not told yet: `changed` hands out none exactly where none were.
    pub fn has_changed(&self) -> bool
        ensures some { result ≡ not (are_none self.now.state.changed) }
    {
        !self.body.changed.is_empty()
    }

    /// Whether nothing that ended is still there, no term and no session: `reap` hands out none then, and lets no session leave.
    pub fn is_settled(&self) -> bool
        ensures settled { result ≡ true → (ended_terms self.now.state ≡ []) × (reaped self.now.state.slots ≡ self.now.state.slots) }
        ensures unsettled { result ≡ false → ended_terms self.now.state ≡ [] → reaped self.now.state.slots ≢ self.now.state.slots }
        ensures few { sessions_of self.now.state ≤ 1022 }
    {
        let body = &*self.body;
        prove!(body.served.count() <= 1022);
        !body.terms.has_over() && !body.served.has_leaving()
    }
}

//! One PPP link, as far as LCP goes (RFC 1661).
ghost use Rattle.std.specs.Prelude.{◌≤◌, ◌≡◌, ◌∷◌, [], ◌<◌, ◌^◌, length, ◌↔◌, ◌⊎◌, ℕ, IfSome, IsNone, option_map, ◌+◌};
ghost use Rattle.bng_ppp.specs.LcpState.{IsFirstAsk, is_opened as opened_in};
ghost use Rattle.bng_ppp.specs.Said.{said, quiet as says_nothing};
ghost use Rattle.bng_ppp.specs.LcpRelation.{LcpLinkSteps, earliest as first_of};
ghost use Rattle.bng_ppp.specs.Echo.{EchoIsDue};
ghost use Rattle.bng_automaton.specs.Timer.{TimerIsOut};

use crate::counters::{Kept, NAKS_MOST};
use crate::identifiers::first;
use crate::lcp_outcome::LcpOutcome;
use crate::lower_layer::first_ask;
use crate::rules::{LcpInput, LinkKind, LinkRules, limit};
use crate::timers::earliest;
use bng_automaton::{Automaton, Event, State};
use bng_base::AuthKind;
use bng_lcp::LcpAsk;
use std::marker::Model;

/// How often a Configure-Request and a Terminate-Request go out without an answer (RFC 1661 section 4.6).
pub(crate) const MAX_CONFIGURE: u8 = 10;

pub(crate) const MAX_TERMINATE: u8 = 2;

/// One PPP link, as far as LCP goes (RFC 1661).
///
/// A contract sees LCP's automaton, the gateway's own side of LCP, and what the link keeps beside them.
#[derive(Drop)]
pub struct LcpLink {
    pub(crate) lcp: Automaton,
    pub(crate) ask: LcpAsk,
    pub(crate) kept: Kept,
}

impl Model for LcpLink {
    ghost use Rattle.std.specs.Prelude.{◌≤◌};
    ghost use Rattle.bng_ppp.specs.LcpState.{LcpState};

    ghost Value = { LcpState };

    ghost view = { λ l. record { lcp = l.lcp; ask = l.ask; kept = l.kept } };

    ghost invariant = { λ l. (l.kept.limit ≤ 1500) × (l.kept.mru ≤ 1500) };
}

impl LcpLink {
    ghost use Rattle.bng_ppp.specs.LcpState.{unused, kept_first, limit_of};

    /// A link that was told nothing. `random` are octets of which its magic number is made; Start makes it anew.
    pub fn new(kind: LinkKind, random: &[u8; 16], _now: u64) -> LcpLink
        ensures lcp { result.lcp ≡ unused }
        ensures ask { IsFirstAsk (limit_of kind) (AuthKind.Chap ∷ []) random.now result.ask }
        ensures kept { result.kept ≡ kept_first (limit_of kind) }
    {
        let limit = limit(kind);
        LcpLink {
            lcp: Automaton::new(MAX_CONFIGURE, MAX_TERMINATE, NAKS_MOST),
            ask: first_ask(limit, &[AuthKind::Chap], random),
            kept: Kept {
                limit,
                ids: first(),
                mru: limit,
                naks: 0,
                was_opened: false,
                unanswered: 0,
                next_echo: None,
            },
        }
    }

    /// Takes an input at a moment in milliseconds, below 2^60, and writes what is to be sent (RFC 1661 sections 4 to 6) into
    /// `steps`, of which what stood there before is gone. The rules are equal at each step of a link. `random` are octets of
    /// which magic numbers are made.
    ///
    /// Octets that are no frame, packets that are malformed, an Echo-Request without a magic number, a Configure-Request
    /// of more than 64 options and a reply to another request than the last are ignored. While LCP is Opened a frame of
    /// another protocol is rejected, but for IPCP, IPv4 and the protocol by which the peer authenticates itself. Where
    /// three Echo-Requests in a row are unanswered as the next is due, the link is lost.
    pub fn step(
        &mut self,
        rules: &LinkRules,
        input: LcpInput<'_>,
        now: u64,
        random: &[u8; 16],
        steps: &mut LcpOutcome,
    )
        requires moment { now < 2 ^ 60 }
        requires auth { 0 < length rules.now.auth.items }
        ensures { LcpLinkSteps rules.now input.entry now random.now self.old (said steps.new) self.new }
    {
        steps.clear();
        self.take_input(rules, input, now, random, steps);
    }

    // Takes an input, and writes what is to be sent where nothing stands yet.
    pub(crate) fn take_input(
        &mut self,
        rules: &LinkRules,
        input: LcpInput<'_>,
        now: u64,
        random: &[u8; 16],
        steps: &mut LcpOutcome,
    )
        requires moment { now < 2 ^ 60 }
        requires auth { 0 < length rules.now.auth.items }
        requires quiet { said steps.old ≡ says_nothing }
        ensures steps { LcpLinkSteps rules.now input.entry now random.now self.old (said steps.new) self.new }
        ensures few { length steps.new.outs.items ≤ 2 }
    {
        match input {
            LcpInput::Start => self.start(rules.auth.as_slice(), rules.echo, now, random, steps),
            LcpInput::Frame(octets) => self.hear(octets, rules.echo, now, random, steps),
            LcpInput::Timer => self.remind(rules.echo, now, steps),
            LcpInput::Close => self.plainly(Event::Close, 0, rules.echo, now, steps),
            LcpInput::Lost => self.lose(rules.echo, now, steps),
        }
    }

    /// Whether LCP was ever Opened.
    pub fn was_opened(&self) -> bool
        ensures { result ≡ self.now.kept.was_opened }
    {
        self.kept.was_opened
    }

    /// Whether LCP is Opened.
    pub fn is_opened(&self) -> bool
        ensures { result ≡ opened_in self.now.lcp.state }
    {
        match self.lcp.state() {
            State::Opened => true,
            _ => false,
        }
    }

    /// The protocol by which the peer is asked to authenticate itself.
    pub(crate) fn auth(&self) -> AuthKind
        ensures { result ≡ self.now.ask.wanted.auth }
    {
        self.ask.wanted().auth
    }

    /// The peer's Maximum-Receive-Unit, in octets: that of its last Configure-Request that was acknowledged, and the
    /// limit where that has none or where there was none.
    pub fn mru(&self) -> u16
        ensures mru { result ≡ self.now.kept.mru }
        ensures most { result ≤ 1500 }
    {
        self.kept.mru
    }

    /// The first moment, in milliseconds, at which Timer does something; none exactly where no timer runs.
    pub fn deadline(&self) -> Option<u64>
        ensures answer { result ≡ first_of (option_map (λ t. t + 3000) self.now.lcp.started) self.now.kept.next_echo }
        ensures first { IfSome result (λ end. (moment : ℕ) → (end ≤ moment) ↔ (TimerIsOut self.now.lcp moment ⊎ EchoIsDue self.now moment)) }
        ensures none { IsNone result ↔ (IsNone self.now.lcp.started × IsNone self.now.kept.next_echo) }
    {
        earliest(self.lcp.deadline(), self.kept.next_echo)
    }
}

//! A whole link: LCP, the peer's authentication and IPCP.
ghost use Rattle.bng_ppp.specs.declared.authentication.Authentication.TheVariants as auth;
ghost use Rattle.std.specs.Prelude.{◌≡◌, ◌∷◌, [], None, false, ◌<◌, ◌^◌, length, ◌≤◌, ◌↔◌, ◌⊎◌, ℕ, option_map, ◌+◌, IsSomeAnd};
ghost use Rattle.bng_ppp.specs.IpcpState.{ipcp_unused};
ghost use Rattle.bng_ppp.specs.LcpState.{IsFirstAsk, unused, kept_first, limit_of};
ghost use Rattle.bng_ppp.specs.Phases.{is_begun, KeepsPhases};
ghost use Rattle.bng_ppp.specs.LinkRelation.{LinkSteps, LinkGoes};
ghost use Rattle.bng_ppp.specs.LinkTimers.{AuthIsDue};
ghost use Rattle.bng_ppp.specs.LinkStep.{link_said, turn_of, IsFresh};
ghost use Rattle.bng_ppp.specs.LinkState.{is_open, passes as passes_in};
ghost use Rattle.bng_automaton.specs.Timer.{TimerIsOut};
ghost use Rattle.bng_ppp.specs.LcpRelation.{earliest as first_of};
ghost use Rattle.bng_ppp.specs.Echo.{EchoIsDue};

use crate::authentication::Authentication;
use crate::input::Input;
use crate::ipcp::Ipcp;
use crate::lcp_link::LcpLink;
use crate::rules::{LcpInput, LinkKind, LinkRules};
use crate::steps::Steps;
use crate::timers::earliest;
use bng_base::AuthKind;
use std::marker::Model;

/// One PPP link, from Start to its end (RFC 1661): LCP, the peer's authentication by PAP (RFC 1334) or CHAP (RFC 1994), and
/// IPCP (RFC 1332).
///
/// A contract sees LCP, how far authentication has come and when its timer is due, IPCP, CHAP's counter of identifiers, and
/// whether a term is live.
#[derive(Drop)]
pub struct Link {
    pub(crate) lcp: LcpLink,
    pub(crate) auth: Authentication,
    pub(crate) auth_due: Option<u64>,
    pub(crate) ipcp: Ipcp,
    pub(crate) next_challenge: u8,
    pub(crate) live: bool,
}

impl Model for Link {
    ghost use Rattle.bng_ppp.specs.LinkState.{LinkState, IsTimed};

    ghost Value = { LinkState };

    ghost view = { λ l. record { lcp = l.lcp; auth = l.auth; auth_due = l.auth_due; ipcp = l.ipcp; next_challenge = l.next_challenge; live = l.live } };

    ghost invariant = { λ l. IsTimed l.auth l.auth_due };
}

impl Link {
    /// A link that was told nothing. `random` are octets of which its magic number is made; Start makes it anew.
    pub fn new(kind: LinkKind, random: &[u8; 16], now: u64) -> Link
        ensures lcp { result.lcp.lcp ≡ unused }
        ensures ask { IsFirstAsk (limit_of kind) (AuthKind.Chap ∷ []) random.now result.lcp.ask }
        ensures kept { result.lcp.kept ≡ kept_first (limit_of kind) }
        ensures auth { result.auth ≡ auth.Idle }
        ensures timer { result.auth_due ≡ None }
        ensures ipcp { result.ipcp ≡ ipcp_unused (record { 0 = 0 }) }
        ensures challenge { result.next_challenge ≡ 1 }
        ensures term { result.live ≡ false }
        ensures phases { KeepsPhases result }
    {
        Link {
            lcp: LcpLink::new(kind, random, now),
            auth: Authentication::Idle,
            auth_due: None,
            ipcp: Ipcp::new(),
            next_challenge: 1,
            live: false,
        }
    }

    /// Takes an input at a moment in milliseconds, below 2^60, and writes what is to be sent and what came of it into `steps`,
    /// of which what stood there before is gone. The rules are equal at each step of a link. `random` are octets of which
    /// magic numbers and the Challenge are made.
    ///
    /// Once LCP is Opened the peer authenticates itself as was agreed: a Challenge goes out every 3 s, ten times in all, or
    /// PAP is waited for 30 s; then LCP does Close. The question is asked once; what is heard until its verdict is ignored,
    /// and after it gets the same reply again. An accepted peer negotiates IPCP, once it has an address; a refused one's LCP
    /// does Close. Where LCP leaves Opened all this begins anew once it is Opened again. Of LCP the step is what [`LcpLink::step`] is.
    pub fn step(
        &mut self,
        rules: &LinkRules,
        input: Input<'_>,
        now: u64,
        random: &[u8; 16],
        steps: &mut Steps,
    )
        requires moment { now < 2 ^ 60 }
        requires auth { 0 < length rules.now.auth.items }
        ensures { LinkSteps rules.now input.entry now random.now self.old (link_said steps.new) self.new }
    {
        steps.clear();
        let term_ended = self.go(rules, input, now, random, steps);
        self.live = self.live && !steps.left && !steps.ended;
        steps.term_ended = term_ended;
    }

    // Goes on by an input, and answers the cause with which that ended a live term.
    fn go(
        &mut self,
        rules: &LinkRules,
        input: Input<'_>,
        now: u64,
        random: &[u8; 16],
        steps: &mut Steps,
    ) -> Option<u8>
        requires moment { now < 2 ^ 60 }
        requires auth { 0 < length rules.now.auth.items }
        requires fresh { IsFresh self.old steps.old }
        ensures { LinkGoes rules.now input.entry now random.now self.old (turn_of self.new steps.new) result }
    {
        match input {
            Input::Start => self.tell_lcp(rules, LcpInput::Start, now, random, steps),
            Input::Frame(octets) => self.hear_counted(rules, octets, now, random, steps),
            Input::Timer => self.remind_counted(rules, now, random, steps),
            Input::Verdict { yes, lease, text } => {
                // A verdict counts while the question is open. It ends no live term.
                if self.auth.is_open() {
                    if yes {
                        self.accept(rules, lease, text.as_slice(), now, steps);
                    } else {
                        self.refuse(rules, text.as_slice(), now, random, steps);
                    }
                }
                None
            }
            Input::Close => self.tell_lcp(rules, LcpInput::Close, now, random, steps),
            Input::Lost => self.tell_lcp(rules, LcpInput::Lost, now, random, steps),
        }
    }

    /// Whether data passes: LCP and IPCP are Opened.
    pub fn passes(&self) -> bool
        ensures { result ≡ passes_in self.now }
    {
        self.lcp.is_opened() && self.ipcp.is_opened()
    }

    /// Whether it asked who the peer is and has no verdict yet.
    pub fn asks(&self) -> bool
        ensures { result ≡ is_open self.now.auth }
    {
        self.auth.is_open()
    }

    /// Whether the peer's authentication has begun, and its outcome counts still.
    pub fn authenticates(&self) -> bool
        ensures { result ≡ is_begun self.now.auth }
    {
        self.auth.is_begun()
    }

    /// Whether LCP was ever Opened.
    pub fn was_opened(&self) -> bool
        ensures { result ≡ self.now.lcp.kept.was_opened }
    {
        self.lcp.was_opened()
    }

    /// The peer's Maximum-Receive-Unit, in octets: that of its last Configure-Request that was acknowledged, and the
    /// limit where that has none or where there was none.
    pub fn mru(&self) -> u16
        ensures mru { result ≡ self.now.lcp.kept.mru }
        ensures most { result ≤ 1500 }
    {
        self.lcp.mru()
    }

    /// The first moment, in milliseconds, at which Timer does something; none exactly where no timer runs.
    pub fn deadline(&self) -> Option<u64>
        ensures answer { result ≡ first_of (first_of (first_of (option_map (λ t. t + 3000) self.now.lcp.lcp.started) self.now.lcp.kept.next_echo) self.now.auth_due) (option_map (λ t. t + 3000) self.now.ipcp.machine.started) }
        ensures due { (moment : ℕ) → IsSomeAnd result (λ end. end ≤ moment)
            ↔ (TimerIsOut self.now.lcp.lcp moment ⊎ (EchoIsDue self.now.lcp moment ⊎ (AuthIsDue self.now moment ⊎ TimerIsOut self.now.ipcp.machine moment))) }
    {
        let lcp = earliest(self.lcp.deadline(), self.auth_due);
        earliest(lcp, self.ipcp.deadline())
    }
}

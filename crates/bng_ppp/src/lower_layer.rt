//! The lower layer of a link: it is ready, or gone (RFC 1661 section 4.3, Up and Down).
ghost use Rattle.std.specs.Prelude.{◌<◌, ◌≤◌, length, ◌≡◌, ◌^◌};
ghost use Rattle.bng_ppp.specs.LcpState.{IsFirstAsk, is_down as down_in};
ghost use Rattle.bng_ppp.specs.LowerLayer.{Starts, Asks, Loses};
ghost use Rattle.bng_ppp.specs.Said.{said, quiet as says_nothing};

use crate::lcp_link::LcpLink;
use crate::lcp_outcome::LcpOutcome;
use arrayvec::ArrayVec;
use bng_automaton::{Event, State};
use bng_base::AuthKind;
use bng_lcp::LcpAsk;

// The gateway's own side of LCP, which has asked for nothing yet.
pub(crate) fn first_ask(limit: u16, auth: &[AuthKind], random: &[u8; 16]) -> LcpAsk
    requires some { 0 < length auth.now }
    requires few { length auth.now ≤ 2 }
    ensures { IsFirstAsk limit auth.now random.now result }
{
    let auth = match auth {
        [first, second] => [*first, *second],
        [first, ..] => [*first, *first],
        [] => unreachable!(),
    };
    let magic = u32::from_be_bytes([random[0], random[1], random[2], random[3]]);
    LcpAsk::new(limit, magic, ArrayVec::from(auth))
}

// Whether the lower layer is down.
fn is_down(state: State) -> bool
    ensures { result ≡ down_in state }
{
    match state {
        State::Initial | State::Starting => true,
        State::Closed | State::Stopped | State::Closing | State::Stopping => false,
        State::ReqSent | State::AckRcvd | State::AckSent | State::Opened => false,
    }
}

impl LcpLink {
    // Open, and then Up.
    pub(crate) fn start(
        &mut self,
        auth: &[AuthKind],
        echo: u16,
        now: u64,
        random: &[u8; 16],
        steps: &mut LcpOutcome,
    )
        requires moment { now < 2 ^ 60 }
        requires some { 0 < length auth.now }
        requires two { length auth.now ≤ 2 }
        requires quiet { said steps.old ≡ says_nothing }
        ensures starts { Starts auth.now random.now echo now self.old (said steps.new) self.new }
        ensures few { length steps.new.outs.items ≤ 2 }
    {
        self.begin(auth, random);
        let open = self.plain_cause(0);
        self.follow(Event::Open, &open, echo, now, steps);
        let up = self.plain_cause(0);
        self.follow(Event::Up, &up, echo, now, steps);
    }

    // The gateway's own side begins anew where the lower layer is down.
    fn begin(&mut self, auth: &[AuthKind], random: &[u8; 16])
        requires some { 0 < length auth.now }
        requires few { length auth.now ≤ 2 }
        ensures asks { Asks (down_in self.old.lcp.state) auth.now random.now self.old self.new.ask }
        ensures rest { self.new ≡ record self.old { ask = self.new.ask } }
    {
        if is_down(self.lcp.state()) {
            self.ask = first_ask(self.kept.limit, auth, random);
        }
    }

    /// Takes the loss of the lower layer.
    pub(crate) fn lose(&mut self, echo: u16, now: u64, steps: &mut LcpOutcome)
        requires moment { now < 2 ^ 60 }
        requires quiet { said steps.old ≡ says_nothing }
        ensures loses { Loses echo now self.old (said steps.new) self.new }
        ensures few { length steps.new.outs.items ≤ 0 }
    {
        self.plainly(Event::Down, 0, echo, now, steps);
        steps.finished = true;
    }
}

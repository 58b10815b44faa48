//! The timers of a link (RFC 1661 section 4.6).
ghost use Rattle.std.specs.Prelude.{◌≡◌, ◌≤◌, ◌<◌, ◌^◌, length};
ghost use Rattle.bng_ppp.specs.LcpRelation.{earliest as first_of};
ghost use Rattle.bng_ppp.specs.Timers.{Reminds};
ghost use Rattle.bng_ppp.specs.Said.{said, quiet as says_nothing};

use crate::automaton::Cause;
use crate::counters::ECHOES_UNANSWERED_MOST;
use crate::lcp_link::LcpLink;
use crate::lcp_outcome::LcpOutcome;

// The earlier of two moments.
pub(crate) fn earliest(a: Option<u64>, b: Option<u64>) -> Option<u64>
    ensures { result ≡ first_of a b }
{
    match (a, b) {
        (Some(a), Some(b)) => Some(a.min(b)),
        (Some(a), None) => Some(a),
        (None, b) => b,
    }
}

impl LcpLink {
    /// Does what the timers ask for.
    pub(crate) fn remind(&mut self, echo: u16, now: u64, steps: &mut LcpOutcome)
        requires moment { now < 2 ^ 60 }
        requires quiet { said steps.old ≡ says_nothing }
        ensures reminds { Reminds echo now self.old (said steps.new) self.new }
        ensures few { length steps.new.outs.items ≤ 1 }
    {
        if let Some(event) = self.lcp.due(now) {
            let cause = Cause {
                timed: true,
                id: 0,
                answer: None,
                mru: self.kept.mru,
                naks: self.kept.naks,
            };
            self.react(event, &cause, echo, now, steps);
        } else if self.echo_is_due(now) {
            if self.kept.unanswered < ECHOES_UNANSWERED_MOST {
                self.ask_for_echo(echo, now, steps);
            } else {
                self.lose(echo, now, steps);
            }
        }
    }
}

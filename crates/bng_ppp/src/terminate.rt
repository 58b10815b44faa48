//! Terminate-Requests and Terminate-Acks (RFC 1661 section 5.5).
ghost use Rattle.std.specs.Prelude.{◌≡◌, ◌+◌, ◌<◌, ◌≤◌, length};
ghost use Rattle.bng_ppp.specs.Said.{said};
ghost use Rattle.bng_ppp.specs.Automaton.{why, terminated};

use crate::automaton::Cause;
use crate::encapsulation::send_bare;
use crate::identifiers::ending;
use crate::lcp_link::LcpLink;
use crate::lcp_outcome::LcpOutcome;
use bng_ppp_wire::code::TERMINATE_REQUEST;
use bng_ppp_wire::protocol;

impl LcpLink {
    // Sends a Terminate-Request.
    pub(crate) fn terminate(&mut self, cause: &Cause<'_>, steps: &mut LcpOutcome)
        requires room { length steps.old.outs.items < 4 }
        ensures few { length steps.new.outs.items ≤ length steps.old.outs.items + 1 }
        ensures after { self.new ≡ (terminated (why cause.now) (record { link = self.old; said = said steps.old })).link }
        ensures said { said steps.new ≡ (terminated (why cause.now) (record { link = self.old; said = said steps.old })).said }
    {
        self.kept.ids = ending(self.kept.ids, cause.timed);
        send_bare(
            protocol::LCP,
            TERMINATE_REQUEST,
            self.kept.ids.terminate,
            steps,
        );
    }
}

//! The Protocol-Reject of a frame of an unknown protocol (RFC 1661 section 5.7).
ghost use Rattle.std.specs.Prelude.{◌≡◌, ◌≤◌, length};
ghost use Rattle.bng_ppp.specs.ProtocolReject.{protocol_of as number_of, passes_over, is_rejected, hears_other};
ghost use Rattle.bng_ppp.specs.Said.{said, quiet as says_nothing};

use crate::encapsulation::send;
use crate::identifiers::next_id;
use crate::lcp_link::LcpLink;
use crate::lcp_outcome::LcpOutcome;
use crate::maximum_receive_unit::{body_most, cut};
use bng_automaton::State;
use bng_base::AuthKind;
use bng_ppp_wire::code::PROTOCOL_REJECT;
use bng_ppp_wire::{Packet, protocol};

/// The number of the protocol by which a peer authenticates itself.
pub(crate) fn protocol_of(auth: AuthKind) -> u16
    ensures { result ≡ number_of auth }
{
    match auth {
        AuthKind::Chap => protocol::CHAP,
        AuthKind::Pap => protocol::PAP,
    }
}

// Whether a protocol is passed over while LCP is Opened.
fn is_known(number: u16, auth: AuthKind) -> bool
    ensures { result ≡ passes_over auth number }
{
    number == protocol::IPCP || number == protocol::IPV4 || number == protocol_of(auth)
}

impl LcpLink {
    // A frame of another protocol.
    pub(crate) fn pass(&mut self, number: u16, octets: &[u8], steps: &mut LcpOutcome)
        requires { said steps.old ≡ says_nothing }
        ensures said { said steps.new ≡ (hears_other (is_rejected self.old number) octets.now self.old).said }
        ensures after { self.new ≡ (hears_other (is_rejected self.old number) octets.now self.old).link }
        ensures few { length steps.new.outs.items ≤ 1 }
    {
        if self.rejects(number) {
            let packet = Packet {
                code: PROTOCOL_REJECT,
                id: self.kept.ids.next,
                body: cut(octets, body_most(self.kept.mru)),
            };
            send(protocol::LCP, &packet, steps);
            self.kept.ids.next = next_id(self.kept.ids.next);
        }
    }

    // Whether a frame of another protocol is rejected.
    fn rejects(&self, number: u16) -> bool
        ensures { result ≡ is_rejected self.now number }
    {
        let auth = self.ask.wanted().auth;
        match self.lcp.state() {
            State::Opened => !is_known(number, auth),
            _ => false,
        }
    }
}

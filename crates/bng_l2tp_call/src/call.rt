ghost use Rattle.std.specs.Prelude.{◌≡◌, ◌↔◌, [], ◌∷◌, true, IsTrue};
ghost use Rattle.bng_l2tp_wire.specs.View.{avps_of, control_of, octets_of, payloads, said, sends as says_to_send};
ghost use Rattle.bng_l2tp_wire.specs.declared.message.TheConstants.{ICRQ, ICCN};
ghost use Rattle.bng_l2tp_call.specs.CallState.{fresh, stands, is_established};
ghost use Rattle.bng_l2tp_wire.specs.Values.{message_type};
ghost use Rattle.bng_l2tp_call.specs.Refusals.{refusal_of, IsRefused};
ghost use Rattle.bng_l2tp_call.specs.Spelling.{code_of as code_of_refusal, administrative as code_of_end, TellsCode, TellsReply};
ghost use Rattle.bng_l2tp_call.specs.Steps.{Step, Hears, IsAccepted, IsLast, to_peer, number_of, addressed, refuses, replies, opens, ends, end_step};
ghost use Rattle.bng_l2tp_call.specs.Cases.{accepted, message_step};
ghost use Rattle.bng_l2tp_call.specs.Sound.{IsCall, IsSound, peer_number_after};

use crate::judge::{asks_for_sequencing, has_wrong_avp, is_taken, lacks_slot};
use crate::phase::CallPhase;
use crate::refusal::{CallRefusal, administrative, code_of};
use crate::spelling::{cdn, icrp};
use arrayvec::ArrayVec;
use bng_base::{Frame, SessionNo, TunnelStep};
use bng_l2tp_wire::judge::has_unknown;
use bng_l2tp_wire::kind::ASSIGNED_SESSION_ID;
use bng_l2tp_wire::message::{CDN, ICCN, ICRQ};
use bng_l2tp_wire::secret::copied_secret;
use bng_l2tp_wire::step::{ended, nothing, opened};
use bng_l2tp_wire::values::{number_at, type_in};
use bng_l2tp_wire::{Avp, Control};
use std::marker::Model;

/// A call of a tunnel, as its network server sees it (RFC 2661 section 7.4.2).
///
/// A contract sees the secret that it was made with, both session numbers, and how far it has come.
#[derive(Drop)]
pub struct Call {
    secret: Option<ArrayVec<u8, 64>>,
    session: SessionNo,
    phase: CallPhase,
    peer_number: Option<u16>,
}

impl Model for Call {
    ghost use Rattle.bng_l2tp_call.specs.CallState.{CallState};
    ghost use Rattle.bng_l2tp_wire.specs.View.{octets_of};

    ghost Value = { CallState };

    ghost view = { λ c. record {
      secret = octets_of c.secret;
      session = c.session.0;
      phase = c.phase;
      peer_number = c.peer_number;
    } };
}

// A step that sends this message, and tells nothing else.
fn sends(message: Frame) -> TunnelStep
    ensures { said result ≡ says_to_send (message.payload ∷ []) }
{
    let mut step = nothing();
    step.outs.push(message);
    step
}

impl Call {
    /// A call that has taken no message yet, with the session number that the gateway gives it. A session of 0 says that none
    /// may be taken. The secret is that of the tunnel's peer, for hidden AVPs (RFC 2661 section 4.3).
    pub fn new(secret: &Option<ArrayVec<u8, 64>>, session: SessionNo) -> Call
        ensures fresh { result ≡ fresh (octets_of secret.now) session.0 }
        ensures sound { IsCall result }
    {
        Call {
            secret: copied_secret(secret),
            session,
            phase: CallPhase::Idle,
            peer_number: None,
        }
    }

    /// Takes a control message that the tunnel delivered (RFC 2661 sections 6.6 to 6.14). Neither random octets nor the moment
    /// count.
    ///
    /// The first message that is taken is an ICRQ, which is answered by an ICRP; then an ICCN opens the call, and a CDN ends
    /// it. WEN and SLI change nothing, and so does a message that the call does not take in its phase. A message that is taken
    /// may be refused by a CDN, for the first of these causes: an AVP that must be known is not (Result Code 2, Error Code 8);
    /// an AVP that must be there is missing or of a wrong length, or a hidden one cannot be read (2, 3); the ICCN has
    /// Sequencing Required (5); no session may be taken for the ICRQ (4). The call has ended then, or none is made.
    ///
    /// The messages that are to go out are for the tunnel to send, which fills in Tunnel ID, Ns and Nr. `opened` says that the
    /// ICCN was taken, and `ended` that the call ended or that none is made.
    pub fn on_message(&mut self, message: &Control<'_>, _random: &[u8; 16], _now: u64) -> TunnelStep
        ensures steps { Hears self.old (control_of message.now) (record { said = said result; after = self.new }) }
        ensures only { (step : Step) → Hears self.old (control_of message.now) step → step ≡ record { said = said result; after = self.new } }
        ensures sound { IsSound self.old (record { said = said result; after = self.new }) }
        ensures refused { (cause : CallRefusal) → IsRefused self.old (control_of message.now) cause ↔ TellsCode (code_of_refusal cause) (payloads result.outs.items) }
        ensures replied { IsAccepted self.old (control_of message.now) ICRQ ↔ TellsReply (payloads result.outs.items) }
        ensures opened { IsTrue result.opened ↔ IsAccepted self.old (control_of message.now) ICCN }
        ensures ended { IsTrue result.ended ↔ IsLast self.old (control_of message.now) }
        ensures number { self.new.peer_number ≡ peer_number_after self.old (control_of message.now) }
    {
        self.hear(message.avps.as_slice())
    }

    /// Ends the call by a CDN with Result Code 3 (RFC 2661 section 6.12). A call that was not made or has ended tells nothing.
    #[tactic(auto, unfolding(crate::specs::Steps::end_step))]
    pub fn end(&mut self) -> TunnelStep
        ensures said { said result ≡ (end_step self.old).said }
        ensures after { self.new ≡ (end_step self.old).after }
        ensures sound { IsSound self.old (record { said = said result; after = self.new }) }
        ensures told { (stands self.old.phase ≡ true) ↔ TellsCode code_of_end (payloads result.outs.items) }
    {
        match self.phase {
            CallPhase::Idle | CallPhase::Ended => nothing(),
            CallPhase::WaitConnect | CallPhase::Established => {
                let message = cdn(self.to_peer(), self.session.0, administrative());
                self.finish(sends(message))
            }
        }
    }

    /// The peer's Assigned Session ID (RFC 2661 section 4.4.4). None comes exactly where none was read.
    pub fn peer_number(&self) -> Option<u16>
        ensures { result ≡ self.now.peer_number }
    {
        self.peer_number
    }

    /// Whether the call is established: its ICCN was taken, and it has not ended (RFC 2661 section 7.4.2).
    pub fn is_connected(&self) -> bool
        ensures { result ≡ is_established self.now.phase }
    {
        match self.phase {
            CallPhase::Established => true,
            CallPhase::Idle | CallPhase::WaitConnect | CallPhase::Ended => false,
        }
    }

    // The session of the peer that messages go to.
    fn to_peer(&self) -> u16
        ensures { result ≡ to_peer self.now }
    {
        self.peer_number.unwrap_or(0)
    }

    // The number of the call, 0 where none was made.
    fn number(&self) -> u16
        ensures { result ≡ number_of self.now }
    {
        match self.phase {
            CallPhase::WaitConnect | CallPhase::Established => self.session.0,
            CallPhase::Idle | CallPhase::Ended => 0,
        }
    }

    // Ends the call in a step.
    fn finish(&mut self, step: TunnelStep) -> TunnelStep
        ensures said { said result ≡ record (said step) { ended = true } }
        ensures after { self.new ≡ record self.old { phase = CallPhase.Ended } }
    {
        self.phase = CallPhase::Ended;
        ended(step)
    }

    // Why a message is refused, where it is.
    #[tactic(auto, unfolding(crate::specs::Refusals::refusal_of))]
    fn refusal(&self, avps: &[Avp<'_>]) -> Option<CallRefusal>
        ensures { result ≡ refusal_of self.now (avps_of avps.now) }
    {
        let found = type_in(avps);
        if has_unknown(avps) {
            return Some(CallRefusal::UnknownAvp);
        }
        if has_wrong_avp(avps, &self.secret, found) {
            return Some(CallRefusal::WrongAvp);
        }
        if asks_for_sequencing(avps, found) {
            return Some(CallRefusal::SequencingRequired);
        }
        if lacks_slot(self.session.0, found) {
            return Some(CallRefusal::NoSlot);
        }
        None
    }

    // A message of the peer.
    #[tactic(auto, unfolding(crate::specs::Cases::message_step))]
    fn hear(&mut self, avps: &[Avp<'_>]) -> TunnelStep
        ensures said { said result ≡ (message_step self.old (avps_of avps.now)).said }
        ensures after { self.new ≡ (message_step self.old (avps_of avps.now)).after }
    {
        if !is_taken(self.phase, type_in(avps)) {
            return nothing();
        }
        match self.refusal(avps) {
            Some(refusal) => self.refuse(avps, refusal),
            None => self.accept(avps),
        }
    }

    // The peer's session is that of the ICRQ, the first message that is taken.
    fn address(&mut self, avps: &[Avp<'_>])
        ensures { self.new ≡ addressed self.old (avps_of avps.now) }
    {
        match self.phase {
            CallPhase::Idle => {
                self.peer_number = number_at(avps, &self.secret, ASSIGNED_SESSION_ID);
            }
            CallPhase::WaitConnect | CallPhase::Established | CallPhase::Ended => {}
        }
    }

    // Refuses a message, which ends the call.
    fn refuse(&mut self, avps: &[Avp<'_>], refusal: CallRefusal) -> TunnelStep
        ensures said { said result ≡ (refuses self.old (avps_of avps.now) refusal).said }
        ensures after { self.new ≡ (refuses self.old (avps_of avps.now) refusal).after }
    {
        let number = self.number();
        self.address(avps);
        let message = cdn(self.to_peer(), number, code_of(refusal));
        self.finish(sends(message))
    }

    // Takes a message that is not refused.
    fn accept(&mut self, avps: &[Avp<'_>]) -> TunnelStep
        ensures said { said result ≡ (accepted self.old (message_type (avps_of avps.now)) (avps_of avps.now)).said }
        ensures after { self.new ≡ (accepted self.old (message_type (avps_of avps.now)) (avps_of avps.now)).after }
    {
        match type_in(avps) {
            Some(ICRQ) => self.reply(avps),
            Some(ICCN) => self.open(),
            Some(CDN) => self.finish(nothing()),
            _ => nothing(),
        }
    }

    // Answers an ICRQ, which makes the call.
    fn reply(&mut self, avps: &[Avp<'_>]) -> TunnelStep
        ensures said { said result ≡ (replies self.old (avps_of avps.now)).said }
        ensures after { self.new ≡ (replies self.old (avps_of avps.now)).after }
    {
        self.address(avps);
        self.phase = CallPhase::WaitConnect;
        sends(icrp(self.to_peer(), self.session.0))
    }

    // An ICCN of the peer.
    fn open(&mut self) -> TunnelStep
        ensures said { said result ≡ (opens self.old).said }
        ensures after { self.new ≡ (opens self.old).after }
    {
        self.phase = CallPhase::Established;
        opened(nothing())
    }
}

ghost use Rattle.std.specs.Prelude.{◌≡◌, ◌&&◌};
ghost use Rattle.bng_l2tp_wire.specs.View.{avps_of, control_of, payloads, said};
ghost use Rattle.bng_l2tp_tunnel.specs.Messages.{is_of_call as belongs_to_call};
ghost use Rattle.bng_l2tp_tunnel.specs.Refusals.{refusal_of};
ghost use Rattle.bng_l2tp_tunnel.specs.Spelling.{stop_ccn as stop_ccn_of, code_of as code_of_refusal};
ghost use Rattle.bng_l2tp_tunnel.specs.Steps.{is_established, begins as does_begin, flushed, turned_away as turns_away, refused, opened_by, opening, made, replied, answered, clears, handed_over, established, ended, accepted, judged, delivered, is_zlb as has_no_avps, heard_by, having_heard, hearing};

use crate::acknowledging::Acknowledging;
use crate::judge::{
    fails_challenge, has_unknown_avp, has_wrong_avp, is_of_call, is_of_wrong_version, is_taken,
    lacks_number,
};
use crate::outs::zlb;
use crate::phase::TunnelPhase;
use crate::refusal::{TunnelRefusal, code_of};
use crate::spelling::{sccrp, stop_ccn};
use crate::tunnel::Tunnel;
use arrayvec::ArrayVec;
use bng_base::TunnelStep;
use bng_l2tp_reliable::{Channel, Heard};
use bng_l2tp_wire::judge::is_type;
use bng_l2tp_wire::kind::{ASSIGNED_TUNNEL_ID, CHALLENGE};
use bng_l2tp_wire::message::{SCCCN, SCCRQ, STOP_CCN};
use bng_l2tp_wire::step::{Outs, cleared, sends};
use bng_l2tp_wire::values::{number_at, type_in, value_of, window_of};
use bng_l2tp_wire::{Avp, Control};

// Whether a message is an SCCRQ that is the first of its channel.
fn begins(message: &Control<'_>) -> bool
    ensures { result ≡ does_begin (control_of message.now) }
{
    is_type(type_in(message.avps.as_slice()), SCCRQ) && message.ns == 0
}

/// Whether a message has no AVPs, and so only acknowledges (RFC 2661 section 5.8).
pub fn is_zlb(message: &Control<'_>) -> bool
    ensures { result ≡ has_no_avps (control_of message.now).avps }
{
    message.avps.is_empty()
}

// The StopCCN that turns an SCCRQ away, if the peer's tunnel is known.
fn turned_away(tunnel: Option<u16>, refusal: TunnelRefusal) -> Outs
    ensures { payloads result.items ≡ turns_away tunnel refusal }
{
    let mut outs = ArrayVec::new();
    if let Some(tunnel) = tunnel {
        outs.push(stop_ccn(tunnel, 1, 0, code_of(refusal)));
    }
    outs
}

// Whether a message is for a call of an established tunnel.
fn is_for_call(phase: TunnelPhase, found: Option<u16>) -> bool
    ensures { result ≡ (is_established phase && belongs_to_call found) }
{
    phase == TunnelPhase::Established && is_of_call(found)
}

impl Tunnel {
    // Why a message is refused, where it is.
    #[tactic(auto, unfolding(crate::specs::Refusals::refusal_of))]
    fn refusal(&self, avps: &[Avp<'_>]) -> Option<TunnelRefusal>
        ensures { result ≡ refusal_of self.now (avps_of avps.now) }
    {
        let found = type_in(avps);
        let secret = &self.rules.secret;
        if !self.rules.known {
            return Some(TunnelRefusal::NotConfigured);
        }
        if is_of_wrong_version(avps, secret, found) {
            return Some(TunnelRefusal::WrongVersion);
        }
        if has_unknown_avp(avps, found) {
            return Some(TunnelRefusal::UnknownAvp);
        }
        if has_wrong_avp(avps, secret, found) {
            return Some(TunnelRefusal::WrongAvp);
        }
        if fails_challenge(avps, secret, &self.challenge, found) {
            return Some(TunnelRefusal::NotAuthorized);
        }
        if !is_taken(self.phase, found) {
            return Some(TunnelRefusal::Unexpected);
        }
        if lacks_number(self.number.0, found) {
            return Some(TunnelRefusal::NoNumber);
        }
        None
    }

    // The first message of a peer.
    #[inline(never)]
    pub(crate) fn open(&mut self, message: &Control<'_>, random: &[u8; 16], now: u64) -> TunnelStep
        ensures said { said result ≡ (opening self.old (control_of message.now) random.now now).said }
        ensures after { self.new ≡ (opening self.old (control_of message.now) random.now now).after }
    {
        if begins(message) {
            self.open_by(message, random, now)
        } else {
            self.clear()
        }
    }

    // An SCCRQ that is the first message of its channel.
    #[inline(never)]
    fn open_by(&mut self, message: &Control<'_>, random: &[u8; 16], now: u64) -> TunnelStep
        ensures said { said result ≡ (opened_by self.old (control_of message.now) random.now now (refusal_of self.old (avps_of message.now.avps.items))).said }
        ensures after { self.new ≡ (opened_by self.old (control_of message.now) random.now now (refusal_of self.old (avps_of message.now.avps.items))).after }
    {
        match self.refusal(message.avps.as_slice()) {
            None => self.reply(message, random, now),
            Some(refusal) => self.turn_away(message.avps.as_slice(), refusal),
        }
    }

    // Answers an SCCRQ that is refused.
    #[inline(never)]
    fn turn_away(&mut self, avps: &[Avp<'_>], refusal: TunnelRefusal) -> TunnelStep
        ensures said { said result ≡ (refused self.old (avps_of avps.now) refusal).said }
        ensures after { self.new ≡ (refused self.old (avps_of avps.now) refusal).after }
    {
        let tunnel = number_at(avps, &self.rules.secret, ASSIGNED_TUNNEL_ID);
        self.peer_number = tunnel;
        self.phase = TunnelPhase::Cleared;
        cleared(sends(turned_away(tunnel, refusal)))
    }

    // Answers an SCCRQ that makes a tunnel.
    #[inline(never)]
    fn reply(&mut self, message: &Control<'_>, random: &[u8; 16], now: u64) -> TunnelStep
        ensures said { said result ≡ (replied self.old (control_of message.now) random.now now).said }
        ensures after { self.new ≡ (replied self.old (control_of message.now) random.now now).after }
    {
        let avps = message.avps.as_slice();
        let asked = value_of(avps, &self.rules.secret, CHALLENGE);
        let answer = sccrp(
            self.rules.name.as_slice(),
            self.number.0,
            &self.rules.secret,
            random,
            &asked,
        );
        self.make(message, random, now);
        self.queue(answer.payload(), now, Acknowledging::ByAny)
    }

    // The tunnel that an SCCRQ makes.
    fn make(&mut self, message: &Control<'_>, random: &[u8; 16], now: u64)
        ensures { self.new ≡ made self.old (control_of message.now) random.now now }
    {
        let avps = message.avps.as_slice();
        let tunnel = number_at(avps, &self.rules.secret, ASSIGNED_TUNNEL_ID);
        let window = window_of(avps, &self.rules.secret);
        self.phase = TunnelPhase::Replied;
        self.peer_number = tunnel;
        self.challenge = *random;
        self.channel = Channel::new(window, now);
        let _ = self.channel.receive(message.ns, message.nr, false, now);
    }

    // Hands a message's numbers to the channel.
    fn receive(&mut self, message: &Control<'_>, now: u64) -> Heard
        ensures answer { result ≡ heard_by self.old (control_of message.now) }
        ensures after { self.new ≡ having_heard self.old (control_of message.now) now }
    {
        let zlb = is_zlb(message);
        self.channel.receive(message.ns, message.nr, zlb, now)
    }

    // A message to a tunnel that was made.
    #[inline(never)]
    pub(crate) fn hear(&mut self, message: &Control<'_>, now: u64) -> TunnelStep
        ensures said { said result ≡ (hearing self.old (control_of message.now) now).said }
        ensures after { self.new ≡ (hearing self.old (control_of message.now) now).after }
    {
        match self.receive(message, now) {
            Heard::Deliver => self.deliver(message.avps.as_slice(), now),
            Heard::Repeat => self.flush(Acknowledging::ByZlb),
            Heard::Ahead | Heard::Acked => self.flush(Acknowledging::Never),
        }
    }

    // A message that the channel delivers.
    #[inline(never)]
    fn deliver(&mut self, avps: &[Avp<'_>], now: u64) -> TunnelStep
        ensures said { said result ≡ (delivered self.old (avps_of avps.now) now).said }
        ensures after { self.new ≡ (delivered self.old (avps_of avps.now) now).after }
    {
        let found = type_in(avps);
        if is_for_call(self.phase, found) {
            self.hand_over()
        } else {
            self.judge(avps, found, now)
        }
    }

    // A message of this type for the tunnel itself.
    #[inline(never)]
    fn judge(&mut self, avps: &[Avp<'_>], found: Option<u16>, now: u64) -> TunnelStep
        ensures said { said result ≡ (judged self.old found now (refusal_of self.old (avps_of avps.now))).said }
        ensures after { self.new ≡ (judged self.old found now (refusal_of self.old (avps_of avps.now))).after }
    {
        match self.refusal(avps) {
            Some(refusal) => self.refuse(refusal, now),
            None => self.accept(found),
        }
    }

    // Hands a call's message over to its call.
    #[inline(never)]
    fn hand_over(&mut self) -> TunnelStep
        ensures said { said result ≡ (handed_over self.old).said }
        ensures after { self.new ≡ (handed_over self.old).after }
    {
        let mut step = self.flush(Acknowledging::Never);
        step.call = true;
        step
    }

    // Refuses a message, which clears the tunnel.
    #[inline(never)]
    fn refuse(&mut self, refusal: TunnelRefusal, now: u64) -> TunnelStep
        ensures said { said result ≡ (clears (answered Acknowledging.ByAny self.old (stop_ccn_of self.old.number (code_of_refusal refusal)) now)).said }
        ensures after { self.new ≡ (clears (answered Acknowledging.ByAny self.old (stop_ccn_of self.old.number (code_of_refusal refusal)) now)).after }
    {
        let stop = stop_ccn(0, 0, self.number.0, code_of(refusal));
        let step = self.queue(stop.payload(), now, Acknowledging::ByAny);
        self.phase = TunnelPhase::Cleared;
        cleared(step)
    }

    // Takes a message that is not refused.
    #[inline(never)]
    fn accept(&mut self, found: Option<u16>) -> TunnelStep
        ensures said { said result ≡ (accepted self.old found).said }
        ensures after { self.new ≡ (accepted self.old found).after }
    {
        match found {
            Some(SCCCN) => self.establish(),
            Some(STOP_CCN) => self.end(),
            _ => self.flush(Acknowledging::ByZlb),
        }
    }

    #[inline(never)]
    fn establish(&mut self) -> TunnelStep
        ensures said { said result ≡ (established (flushed Acknowledging.ByZlb self.old)).said }
        ensures after { self.new ≡ (established (flushed Acknowledging.ByZlb self.old)).after }
    {
        let mut step = self.flush(Acknowledging::ByZlb);
        step.established = true;
        self.phase = TunnelPhase::Established;
        step
    }

    // A StopCCN of the peer.
    #[inline(never)]
    fn end(&mut self) -> TunnelStep
        ensures said { said result ≡ (ended self.old).said }
        ensures after { self.new ≡ (ended self.old).after }
    {
        let mut outs = ArrayVec::new();
        outs.push(zlb(&self.channel, self.to_peer()));
        self.phase = TunnelPhase::Cleared;
        cleared(sends(outs))
    }
}

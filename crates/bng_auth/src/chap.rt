//! The Challenge Handshake Authentication Protocol, by RFC 1994: the gateway's side.
ghost use Rattle.std.specs.Prelude.{◌≡◌, ◌≤◌, ◌+◌, ◌++◌, ℕ, List, None, ◌∷◌, IfSome, IfNone, length, false};
ghost use Rattle.bng_base.specs.PppGrammar.{packet_text};
ghost use Rattle.bng_ppp_wire.specs.View.{packet_of};
ghost use Rattle.bng_auth.specs.Requests.{IsResponse};
ghost use Rattle.bng_auth.specs.Questions.{IsProof};
ghost use Rattle.bng_auth.specs.Replying.{reply_of};

use crate::credentials::{Credentials, NAME_MOST, Proof, listed};
use crate::reply::{Reply, TEXT_MOST, Verdict, accepts, replied, text_of};
use crate::step::AuthStep;
use bng_base::{AuthKind, Frame, HEADROOM};
use bng_ppp_wire::Packet;
use bng_ppp_wire::code::{CHALLENGE, RESPONSE};
use std::marker::Model;

/// The octets of a Value (RFC 1994 section 4.1, with MD5).
const VALUE: u8 = 16;

/// A peer that authenticates itself by CHAP. Contracts see the Challenge's Identifier and Value, whether a question was
/// asked, and the verdict.
#[derive(Drop)]
pub struct Chap {
    id: u8,
    challenge: [u8; 16],
    asked: bool,
    verdict: Option<Verdict>,
}

impl Model for Chap {
    ghost use Rattle.bng_auth.specs.Questions.{ChapQuestion, verdict_of};

    ghost Value = { ChapQuestion };

    ghost view = { λ c. record { id = c.id; challenge = c.challenge; asked = c.asked; verdict = verdict_of c.verdict } };
}

// The Value and the Name of a Response with this Identifier.
fn response_of<'a>(id: u8, packet: &Packet<'a>) -> Option<(&'a [u8], &'a [u8])>
    ensures found { IfSome result (λ r. IsResponse id (packet_of packet.now) r.0.now r.1.now) }
    ensures none { IfNone result ((value name : List ℕ) → ¬ IsResponse id (packet_of packet.now) value name) }
{
    let body = packet.body;
    if packet.code != RESPONSE || packet.id != id || body.len() < 17 || body[0] != VALUE {
        return None;
    }
    Some((&body[1..17], &body[17..]))
}

// The name, and the Value that proves it.
fn claimed(id: u8, challenge: &[u8; 16], value: &[u8], name: &[u8]) -> Credentials
    requires value { length value.now ≡ 16 }
    requires name { length name.now ≤ NAME_MOST }
    ensures name { result.name.items ≡ name.now }
    ensures proof { IsProof result.proof id challenge.now value.now }
{
    let mut octets = [0; 16];
    octets.copy_from_slice(value);
    let challenge = *challenge;
    Credentials {
        name: listed(name),
        proof: Proof::Chap {
            id,
            challenge,
            value: octets,
        },
    }
}

impl Chap {
    ghost use Rattle.bng_auth.specs.Questions.{ChapTakes, ChapSettles, chap_is_open, is_yes};

    /// A peer that is challenged with these octets, under this Identifier.
    pub fn ask(random: &[u8; 16], id: u8) -> Chap
        ensures { result ≡ record { id = id; challenge = random.now; asked = false; verdict = None } }
    {
        let challenge = *random;
        Chap {
            id,
            challenge,
            asked: false,
            verdict: None,
        }
    }

    /// Writes the Challenge, which has the gateway's name, of at most 64 octets.
    pub fn challenge(&self, name: &[u8], into: &mut Frame)
        requires { length name.now ≤ 64 }
        ensures { into.new ≡ record { payload = packet_text (record { code = CHALLENGE; id = self.now.id; body = VALUE ∷ (self.now.challenge ++ name.now) }); headroom = HEADROOM } }
    {
        let [high, low] = ((4 + (1 + (16 + name.len()))) as u16).to_be_bytes();
        into.set(&[CHALLENGE, self.id, high, low, VALUE]);
        into.put_back(&self.challenge);
        into.put_back(name);
    }

    /// Whether a question was asked whose verdict is not there yet.
    pub fn is_open(&self) -> bool
        ensures { result ≡ chap_is_open self.now }
    {
        self.asked && self.verdict.is_none()
    }

    /// Whether the verdict is there and is yes.
    pub fn is_accepted(&self) -> bool
        ensures { result ≡ is_yes self.now.verdict }
    {
        accepts(&self.verdict)
    }

    /// Takes a packet of the peer. A Response counts if its Identifier is the Challenge's and its Value has 16 octets.
    /// The first that counts is asked about; while that question is open others are ignored; after the verdict each that
    /// counts gets the same reply.
    pub fn on_frame(&mut self, packet: &Packet<'_>) -> AuthStep
        ensures { ChapTakes self.old (packet_of packet.now) result self.new }
    {
        let Some((value, name)) = response_of(self.id, packet) else {
            return AuthStep::Ignore;
        };
        if let Some(verdict) = &self.verdict {
            return AuthStep::Again(replied(AuthKind::Chap, verdict, packet.id));
        }
        if self.asked {
            return AuthStep::Ignore;
        }
        self.asked = true;
        if name.is_empty() || name.len() > NAME_MOST {
            return AuthStep::Refuse;
        }
        AuthStep::Ask(claimed(self.id, &self.challenge, value, name))
    }

    /// The verdict, with a text of at most 253 octets, and the reply that gives it, with the Challenge's Identifier. The
    /// first verdict stays; after it the same reply is given again.
    pub fn on_verdict(&mut self, yes: bool, text: &[u8]) -> Reply
        requires { length text.now ≤ TEXT_MOST }
        ensures { ChapSettles self.old yes text.now (reply_of result) self.new }
    {
        if let Some(verdict) = &self.verdict {
            return replied(AuthKind::Chap, verdict, self.id);
        }
        let verdict = Verdict {
            yes,
            text: text_of(text),
        };
        let reply = replied(AuthKind::Chap, &verdict, self.id);
        self.verdict = Some(verdict);
        reply
    }
}

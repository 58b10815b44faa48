//! The Password Authentication Protocol, by RFC 1334 section 2: the gateway's side.
ghost use Rattle.std.specs.Prelude.{◌≡◌, ◌≤◌, ℕ, List, None, IfSome, IfNone, length, if◌then◌else◌};
ghost use Rattle.bng_ppp_wire.specs.View.{packet_of};
ghost use Rattle.bng_auth.specs.Requests.{IsPapRequest};
ghost use Rattle.bng_auth.specs.Replying.{reply_of};

use crate::credentials::{Credentials, NAME_MOST, PASSWORD_MOST, Proof, listed};
use crate::reply::{Reply, TEXT_MOST, Verdict, accepts, replied, text_of};
use crate::step::AuthStep;
use bng_base::AuthKind;
use bng_ppp_wire::Packet;
use bng_ppp_wire::code::AUTHENTICATE_REQUEST;
use std::marker::Model;

/// A peer that authenticates itself by PAP. Contracts see the Identifier of the request that was asked about, and the
/// verdict.
#[derive(Drop)]
pub struct Pap {
    asked: Option<u8>,
    verdict: Option<Verdict>,
}

impl Model for Pap {
    ghost use Rattle.bng_auth.specs.Questions.{PapQuestion, verdict_of};

    ghost Value = { PapQuestion };

    ghost view = { λ p. record { asked = p.asked; verdict = verdict_of p.verdict } };
}

// The Peer-ID and the Password of an Authenticate-Request.
fn request_of<'a>(packet: &Packet<'a>) -> Option<(&'a [u8], &'a [u8])>
    ensures found { IfSome result (λ r. IsPapRequest (packet_of packet.now) r.0.now r.1.now) }
    ensures none { IfNone result ((name password : List ℕ) → ¬ IsPapRequest (packet_of packet.now) name password) }
{
    let body = packet.body;
    if packet.code != AUTHENTICATE_REQUEST || body.is_empty() {
        return None;
    }
    let name = usize::from(body[0]);
    if body.len() < name + 2 {
        return None;
    }
    let password = usize::from(body[name + 1]);
    if body.len() != name + 2 + password {
        return None;
    }
    Some((&body[1..name + 1], &body[name + 2..]))
}

impl Pap {
    ghost use Rattle.bng_auth.specs.Questions.{PapTakes, PapSettles, pap_is_open, is_yes};

    /// A peer that has sent nothing yet.
    pub fn new() -> Pap
        ensures { result ≡ record { asked = None; verdict = None } }
    {
        Pap {
            asked: None,
            verdict: None,
        }
    }

    /// Whether a question was asked whose verdict is not there yet.
    pub fn is_open(&self) -> bool
        ensures { result ≡ pap_is_open self.now }
    {
        self.asked.is_some() && self.verdict.is_none()
    }

    /// Whether the verdict is there and is yes.
    pub fn is_accepted(&self) -> bool
        ensures { result ≡ is_yes self.now.verdict }
    {
        accepts(&self.verdict)
    }

    /// Takes a packet of the peer. Its first Authenticate-Request is asked about; while that question is open others are
    /// ignored; after the verdict each gets the same reply, with its own Identifier.
    pub fn on_frame(&mut self, packet: &Packet<'_>) -> AuthStep
        ensures { PapTakes self.old (packet_of packet.now) result self.new }
    {
        let Some((name, password)) = request_of(packet) else {
            return AuthStep::Ignore;
        };
        if let Some(verdict) = &self.verdict {
            return AuthStep::Again(replied(AuthKind::Pap, verdict, packet.id));
        }
        if self.asked.is_some() {
            return AuthStep::Ignore;
        }
        self.asked = Some(packet.id);
        if name.is_empty() || name.len() > NAME_MOST || password.len() > PASSWORD_MOST {
            return AuthStep::Refuse;
        }
        AuthStep::Ask(Credentials {
            name: listed(name),
            proof: Proof::Pap(listed(password)),
        })
    }

    /// The verdict, with a text of at most 253 octets, and the reply that gives it: to the request that was asked about,
    /// Identifier 0 where there was none. The first verdict stays; after it the same reply is given again.
    pub fn on_verdict(&mut self, yes: bool, text: &[u8]) -> Reply
        requires { length text.now ≤ TEXT_MOST }
        ensures { PapSettles self.old yes text.now (reply_of result) self.new }
    {
        let id = self.asked.unwrap_or(0);
        if let Some(verdict) = &self.verdict {
            return replied(AuthKind::Pap, verdict, id);
        }
        let verdict = Verdict {
            yes,
            text: text_of(text),
        };
        let reply = replied(AuthKind::Pap, &verdict, id);
        self.verdict = Some(verdict);
        reply
    }
}

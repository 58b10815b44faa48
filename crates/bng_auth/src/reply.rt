//! The reply to a peer that authenticates itself.
ghost use Rattle.std.specs.Prelude.{◌≡◌, ◌≤◌, length};
ghost use Rattle.bng_base.specs.PppGrammar.{packet_text};
ghost use Rattle.bng_auth.specs.Replying.{reply_of, code_of, reply_packet};
ghost use Rattle.bng_auth.specs.Questions.{verdict_of, is_yes};

use arrayvec::ArrayVec;
use bng_base::{AuthKind, Frame, HEADROOM};
use bng_ppp_wire::code::{AUTHENTICATE_ACK, AUTHENTICATE_NAK, FAILURE, SUCCESS};

/// The longest text of a reply, in octets.
pub const TEXT_MOST: usize = 253;

/// What was found of a peer, and the text that says so.
#[derive(Drop)]
pub struct Verdict {
    pub yes: bool,
    pub text: ArrayVec<u8, 253>,
}

/// An Authenticate-Ack or -Nak (RFC 1334 section 2.2.2), a Success or a Failure (RFC 1994 section 4.2).
#[derive(Drop)]
pub struct Reply {
    pub kind: AuthKind,
    /// The peer is who it says.
    pub yes: bool,
    /// The Identifier of the packet that is replied to.
    pub id: u8,
    pub text: ArrayVec<u8, 253>,
}

/// A list of these octets.
pub(crate) fn text_of(octets: &[u8]) -> ArrayVec<u8, 253>
    requires { length octets.now ≤ TEXT_MOST }
    ensures { result.items ≡ octets.now }
{
    let Ok(list) = ArrayVec::try_from(octets) else {
        unreachable!();
    };
    list
}

/// The reply that gives this verdict.
pub(crate) fn replied(kind: AuthKind, verdict: &Verdict, id: u8) -> Reply
    ensures { reply_of result ≡ record { kind = kind; yes = verdict.now.yes; id = id; text = verdict.now.text.items } }
{
    Reply {
        kind,
        yes: verdict.yes,
        id,
        text: text_of(verdict.text.as_slice()),
    }
}

/// Whether a verdict is there and is yes.
pub(crate) fn accepts(verdict: &Option<Verdict>) -> bool
    ensures { result ≡ is_yes (verdict_of verdict.now) }
{
    match verdict {
        Some(verdict) => verdict.yes,
        None => false,
    }
}

impl Reply {
    /// The Code of the packet.
    pub fn code(&self) -> u8
        ensures { result ≡ code_of self.now.kind self.now.yes }
    {
        match (self.kind, self.yes) {
            (AuthKind::Pap, true) => AUTHENTICATE_ACK,
            (AuthKind::Pap, false) => AUTHENTICATE_NAK,
            (AuthKind::Chap, true) => SUCCESS,
            (AuthKind::Chap, false) => FAILURE,
        }
    }

    /// Writes the packet: of PAP the text's length and the text, of CHAP the text alone.
    pub fn write(&self, into: &mut Frame)
        ensures { into.new ≡ record { payload = packet_text (reply_packet (reply_of self.now)); headroom = HEADROOM } }
    {
        let text = self.text.as_slice();
        let code = self.code();
        match self.kind {
            AuthKind::Pap => {
                let [high, low] = ((4 + (1 + text.len())) as u16).to_be_bytes();
                into.set(&[code, self.id, high, low, text.len() as u8]);
            }
            AuthKind::Chap => {
                let [high, low] = ((4 + text.len()) as u16).to_be_bytes();
                into.set(&[code, self.id, high, low]);
            }
        }
        into.put_back(text);
    }
}

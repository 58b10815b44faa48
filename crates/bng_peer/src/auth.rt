//! The subscriber's side of PAP (RFC 1334 section 2) and of CHAP (RFC 1994 section 4).
ghost use Rattle.std.specs.Prelude.{◌≤◌, length};

use crate::asking::Asking;
use crate::packet::{Body, body_of, control_frame, put_all};
use crate::script::{is_pap, name};
use crate::subscriber::{SubscriberStage, Subscriber};
use bng_base::Frame;
use bng_digest::chap_value;
use bng_ppp_wire::code::{AUTHENTICATE_ACK, AUTHENTICATE_REQUEST, CHALLENGE, RESPONSE, SUCCESS};
use bng_ppp_wire::{Packet, protocol};

/// The Identifier of its Authenticate-Request.
const REQUEST_ID: u8 = 1;

/// Puts octets behind their number.
fn put_counted(body: &mut Body, octets: &[u8])
    requires { length octets.now ≤ 255 }
{
    put_all(body, &[octets.len() as u8]);
    put_all(body, octets);
}

impl Subscriber {
    /// Its Authenticate-Request, or its Response to the Challenge.
    pub(crate) fn credentials(&self) -> Frame {
        let user = name(b'u', self.number);
        if is_pap(self.number) {
            let password = name(b'p', self.number);
            let mut body = body_of(&[]);
            put_counted(&mut body, user.as_slice());
            put_counted(&mut body, password.as_slice());
            return control_frame(
                protocol::PAP,
                AUTHENTICATE_REQUEST,
                REQUEST_ID,
                body.as_slice(),
            );
        }
        let mut body = body_of(&[]);
        put_counted(&mut body, &self.response);
        put_all(&mut body, user.as_slice());
        control_frame(protocol::CHAP, RESPONSE, self.challenge_id, body.as_slice())
    }

    /// Takes a packet of PAP.
    pub(crate) fn hear_pap(&mut self, packet: &Packet<'_>) {
        if packet.code == AUTHENTICATE_ACK && packet.id == REQUEST_ID && is_pap(self.number) {
            self.try_to_address();
        }
    }

    /// Takes a packet of CHAP.
    pub(crate) fn hear_chap(&mut self, packet: &Packet<'_>) {
        match packet.code {
            CHALLENGE => self.hear_challenge(packet),
            SUCCESS => {
                if packet.id == self.challenge_id {
                    self.try_to_address();
                }
            }
            _ => {}
        }
    }

    // Its password is the secret.
    fn hear_challenge(&mut self, packet: &Packet<'_>) {
        let [size, rest @ ..] = packet.body else {
            return;
        };
        let size = usize::from(*size);
        if self.stage != SubscriberStage::Authenticating {
            return;
        }
        if rest.len() < size {
            return;
        }
        let password = name(b'p', self.number);
        self.challenge_id = packet.id;
        self.response = chap_value(packet.id, password.as_slice(), &rest[..size]);
        self.asking = Asking::ToSend;
    }

    // It was let in, and asks for its address.
    fn try_to_address(&mut self) {
        if self.stage == SubscriberStage::Authenticating {
            self.enter(SubscriberStage::Addressing, Asking::ToSend);
        }
    }
}

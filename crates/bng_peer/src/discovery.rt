//! The subscriber's side of PPPoE (RFC 2516 section 5), and its frames.
ghost use Rattle.bng_base.specs.PppoeGrammar.{HasFewTags};
ghost use Rattle.bng_pppoe_wire.specs.View.{frame_of as view_of};

use crate::asking::Asking;
use crate::script::mac_of;
use crate::subscriber::{SubscriberStage, Subscriber};
use bng_base::{Frame, Mac, Written};
use bng_ppp_wire::Ppp;
use bng_pppoe_wire::code::{PADI, PADO, PADR, PADS, PADT, SESSION_DATA};
use bng_pppoe_wire::kind::{AC_COOKIE, HOST_UNIQ, SERVICE_NAME};
use bng_pppoe_wire::{Pppoe, Tag, tags, write_tags};

const BROADCAST: Mac = Mac([0xff; 6]);

/// The gateway's Ethernet address.
const GATEWAY: Mac = Mac([2, 0, 0, 0, 0, 0xfe]);

/// A frame with these octets, to the gateway unless it is a PADI.
fn frame_of(number: u16, code: u8, session: u16, payload: &[u8]) -> Frame {
    let frame = Pppoe {
        dst: if code == PADI { BROADCAST } else { GATEWAY },
        src: mac_of(number),
        discovery: code != SESSION_DATA,
        code,
        session,
        payload,
    };
    let mut text = Frame::new();
    match frame.write(&mut text) {
        Written::Done | Written::Full => {}
    }
    text
}

/// The value of the first tag of this type.
fn value_in<'a>(list: &[Tag<'a>], kind: u16) -> Option<&'a [u8]> {
    for tag in list {
        if tag.kind == kind {
            return Some(tag.value);
        }
    }
    None
}

/// Sixteen octets, as the gateway's AC-Cookies have.
fn sixteen(octets: &[u8]) -> Option<[u8; 16]> {
    if octets.len() != 16 {
        return None;
    }
    let mut cookie = [0; 16];
    cookie.copy_from_slice(octets);
    Some(cookie)
}

impl Subscriber {
    // What the gateway's frames to it repeat (RFC 2516 appendix A).
    fn host_uniq(&self) -> [u8; 4] {
        u32::from(self.number).to_be_bytes()
    }

    fn padi(&self) -> Frame {
        let host = self.host_uniq();
        let list = [
            Tag {
                kind: SERVICE_NAME,
                value: &[],
            },
            Tag {
                kind: HOST_UNIQ,
                value: &host,
            },
        ];
        let mut text = Frame::new();
        match write_tags(&list, &mut text) {
            Written::Done | Written::Full => {}
        }
        frame_of(self.number, PADI, 0, text.payload())
    }

    fn padr(&self) -> Frame {
        let host = self.host_uniq();
        let list = [
            Tag {
                kind: SERVICE_NAME,
                value: &[],
            },
            Tag {
                kind: HOST_UNIQ,
                value: &host,
            },
            Tag {
                kind: AC_COOKIE,
                value: &self.cookie,
            },
        ];
        let mut text = Frame::new();
        match write_tags(&list, &mut text) {
            Written::Done | Written::Full => {}
        }
        frame_of(self.number, PADR, 0, text.payload())
    }

    /// The next frame that it sends over PPPoE.
    pub(crate) fn frame(&mut self) -> Option<Frame> {
        if let Some(reply) = self.reply() {
            return Some(frame_of(self.number, SESSION_DATA, self.session, reply.payload()));
        }
        if self.asking != Asking::ToSend {
            return None;
        }
        match self.stage {
            SubscriberStage::Initiating => {
                self.asking = Asking::Sent;
                Some(self.padi())
            }
            SubscriberStage::Requesting => {
                self.asking = Asking::Sent;
                Some(self.padr())
            }
            _ => {
                let request = self.request()?;
                Some(frame_of(self.number, SESSION_DATA, self.session, request.payload()))
            }
        }
    }

    /// Takes a frame of PPPoE.
    pub(crate) fn hear_frame(&mut self, frame: &Pppoe<'_>)
        requires { HasFewTags (view_of frame.now) }
    {
        match frame.code {
            PADO => self.hear_offer(frame),
            PADS => self.hear_confirmation(frame),
            PADT => {
                if frame.session == self.session {
                    self.end();
                }
            }
            SESSION_DATA => {
                if frame.session == self.session {
                    self.hear_session(frame.payload);
                }
            }
            _ => {}
        }
    }

    // It takes the first offer (RFC 2516 section 5.3).
    fn hear_offer(&mut self, frame: &Pppoe<'_>)
        requires { HasFewTags (view_of frame.now) }
    {
        if self.stage != SubscriberStage::Initiating {
            return;
        }
        if !frame.discovery {
            return;
        }
        let list = tags(frame);
        let Some(value) = value_in(list.as_slice(), AC_COOKIE) else {
            return;
        };
        if let Some(cookie) = sixteen(value) {
            self.cookie = cookie;
            self.enter(SubscriberStage::Requesting, Asking::ToSend);
        }
    }

    fn hear_session(&mut self, payload: &[u8]) {
        if let Ok(ppp) = Ppp::read(payload) {
            self.hear(&ppp);
        }
    }

    fn hear_confirmation(&mut self, frame: &Pppoe<'_>) {
        if self.stage == SubscriberStage::Requesting && frame.session != 0 {
            self.session = frame.session;
            self.enter(SubscriberStage::Configuring, Asking::ToSend);
        }
    }
}

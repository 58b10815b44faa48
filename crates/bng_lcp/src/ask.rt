//! The gateway's own side of LCP: what it asks for, and what becomes of the replies.
ghost use Rattle.std.specs.Prelude.{◌≡◌, ◌<◌, Some, None, length, slice_get, fold};
ghost use Rattle.bng_base.specs.PppGrammar.{packet_text, options_text};
ghost use Rattle.bng_ppp_wire.specs.View.{option_of, options_of, packet_of};

use crate::authentication_protocol::auth_after;
use crate::configure_reply::{Taken, left_out};
use crate::configure_request::{LcpOptions, SentLcpRequest, asked};
use crate::magic_number::magic_from;
use crate::maximum_receive_unit::is_mru_within;
use crate::option::{AUTHENTICATION_PROTOCOL, MAGIC_NUMBER, MAXIMUM_RECEIVE_UNIT};
use arrayvec::ArrayVec;
use bng_base::{AuthKind, Frame, HEADROOM};
use bng_ppp_wire::code::CONFIGURE_REQUEST;
use bng_ppp_wire::{ConfigureReply, Opt, Packet, names, put_made, read_reply};
use std::marker::Model;

/// The gateway's side of LCP on one link: what its next Configure-Request asks for, and the last one that it sent.
#[derive(Drop)]
pub struct LcpAsk {
    limit: u16,
    allowed: ArrayVec<AuthKind, 2>,
    wanted: LcpOptions,
    sent: Option<SentLcpRequest>,
}

impl Model for LcpAsk {
    ghost use Rattle.bng_lcp.specs.Ask.{Ask};

    ghost Value = { Ask };

    ghost view = { λ a. record { limit = a.limit; allowed = a.allowed.items; wanted = a.wanted; sent = a.sent } };
}

impl LcpAsk {
    ghost use Rattle.bng_lcp.specs.Judgement.{magic_from as magic_of};
    ghost use Rattle.bng_lcp.specs.ConfigureRequest.{asked as asked_of};
    ghost use Rattle.bng_lcp.specs.ConfigureReply.{changed_by as change, Takes};

    /// A side that has sent nothing yet and asks for the limit as its Maximum-Receive-Unit, for the first of the ways to
    /// authenticate, and for a magic number. `limit` is the largest Maximum-Receive-Unit that it takes, in octets, and
    /// `magic` are four random octets, of which the magic number is made. `auth` are the ways that are allowed, at least
    /// one.
    pub fn new(limit: u16, magic: u32, auth: ArrayVec<AuthKind, 2>) -> LcpAsk
        requires { 0 < length auth.items }
        ensures limit { result.limit ≡ limit }
        ensures allowed { result.allowed ≡ auth.items }
        ensures mru { result.wanted.mru ≡ Some limit }
        ensures auth { slice_get auth.items 0 ≡ Some result.wanted.auth }
        ensures magic { result.wanted.magic ≡ Some (magic_of magic) }
        ensures unsent { result.sent ≡ None }
    {
        let first = auth.as_slice()[0];
        LcpAsk {
            limit,
            allowed: auth,
            wanted: LcpOptions {
                mru: Some(limit),
                auth: first,
                magic: Some(magic_from(magic)),
            },
            sent: None,
        }
    }

    /// What the next Configure-Request asks for.
    pub fn wanted(&self) -> LcpOptions
        ensures { result ≡ self.now.wanted }
    {
        self.wanted
    }

    /// Writes the Configure-Request with this Identifier, as an LCP packet, and keeps what it asked for.
    pub fn request(&mut self, id: u8, into: &mut Frame)
        ensures text { into.new ≡ record {
          payload = packet_text (record { code = CONFIGURE_REQUEST; id = id; body = options_text (asked_of self.old.wanted) });
          headroom = HEADROOM;
        } }
        ensures sent { self.new ≡ record self.old { sent = Some (record { id = id; options = self.old.wanted }) } }
    {
        let wanted = self.wanted;
        let list = asked(&wanted);
        let mut body = Frame::new();
        put_made(list.as_slice(), &mut body);
        let request = Packet {
            code: CONFIGURE_REQUEST,
            id,
            body: body.payload(),
        };
        let _done = request.write(into);
        self.sent = Some(SentLcpRequest {
            id,
            options: wanted,
        });
    }

    /// Takes a reply to the last Configure-Request (RFC 1661 sections 5.2 to 5.4).
    ///
    /// A Configure-Ack counts where it has the identifier and the options of the last request. A Configure-Reject counts
    /// where it has that identifier and those of its options whose types it names; an option that it names is asked for
    /// no longer. A Configure-Nak counts where it has that identifier; of what it suggests a Maximum-Receive-Unit from
    /// 128 to the limit and an allowed Authentication-Protocol are taken, and for a Magic-Number the first four of the
    /// random octets. All else is Ignored, and but for Changed all is as before.
    pub fn on_reply(&mut self, reply: &Packet<'_>, random: &[u8; 16]) -> Taken
        ensures { Takes result self.old (packet_of reply.now) random.now self.new }
    {
        let Some(sent) = self.sent else {
            return Taken::Ignored;
        };
        let asked = asked(&sent.options);
        match read_reply(sent.id, asked.as_slice(), reply) {
            ConfigureReply::Ack => Taken::Accepted,
            ConfigureReply::Nak(suggested) => {
                let fresh = u32::from_be_bytes([random[0], random[1], random[2], random[3]]);
                self.wanted = self.after_nak(suggested.as_slice(), magic_from(fresh));
                Taken::Changed
            }
            ConfigureReply::Reject(rejected) => {
                if names(rejected.as_slice(), AUTHENTICATION_PROTOCOL) {
                    return Taken::Unwilling;
                }
                self.wanted = left_out(&self.wanted, rejected.as_slice());
                Taken::Changed
            }
            ConfigureReply::Other => Taken::Ignored,
        }
    }

    // What is asked for after the options of a Configure-Nak.
    fn after_nak(&self, options: &[Opt<'_>], magic: u32) -> LcpOptions
        ensures { result ≡ fold (change self.now magic) self.now.wanted (options_of options.now) }
    {
        let mut wanted = self.wanted;
        for option in options {
            wanted = self.changed_by(wanted, option, magic);
        }
        wanted
    }

    // What one option of a Configure-Nak changes.
    fn changed_by(&self, wanted: LcpOptions, option: &Opt<'_>, magic: u32) -> LcpOptions
        ensures { result ≡ change self.now magic wanted (option_of option.now) }
    {
        match (option.kind, option.value) {
            (MAXIMUM_RECEIVE_UNIT, [high, low]) => {
                let mru = u16::from_be_bytes([*high, *low]);
                if wanted.mru.is_some() && is_mru_within(self.limit, mru) {
                    LcpOptions {
                        mru: Some(mru),
                        ..wanted
                    }
                } else {
                    wanted
                }
            }
            (MAGIC_NUMBER, [_, _, _, _]) => {
                if wanted.magic.is_some() {
                    LcpOptions {
                        magic: Some(magic),
                        ..wanted
                    }
                } else {
                    wanted
                }
            }
            (AUTHENTICATION_PROTOCOL, value) => LcpOptions {
                auth: auth_after(self.allowed.as_slice(), value, wanted.auth),
                ..wanted
            },
            _ => wanted,
        }
    }
}

//! The gateway's own side of IPCP: what it asks for, and what becomes of the replies.
ghost use Rattle.std.specs.Prelude.{◌≡◌, Some, None};
ghost use Rattle.bng_base.specs.PppGrammar.{packet_text, options_text};
ghost use Rattle.bng_ppp_wire.specs.View.{packet_of};

use crate::configure_reply::{Taken, left_out};
use crate::configure_request::{IpcpOptions, SentIpcpRequest, asked};
use bng_base::{Frame, HEADROOM, Ip4};
use bng_ppp_wire::code::CONFIGURE_REQUEST;
use bng_ppp_wire::{ConfigureReply, Packet, put_made, read_reply};
use std::marker::Model;

/// The gateway's side of IPCP on one link: what its next Configure-Request asks for, and the last one that it sent.
#[derive(Clone, Copy)]
pub struct IpcpAsk {
    wanted: IpcpOptions,
    sent: Option<SentIpcpRequest>,
}

impl Model for IpcpAsk {
    ghost use Rattle.bng_ipcp.specs.Ask.{Ask};

    ghost Value = { Ask };

    ghost view = { λ a. record { wanted = a.wanted; sent = a.sent } };

    ghost inverse = { λ a. record { wanted = a.wanted; sent = a.sent } };
}

impl IpcpAsk {
    ghost use Rattle.bng_ipcp.specs.ConfigureRequest.{asked as asked_of};
    ghost use Rattle.bng_ipcp.specs.ConfigureReply.{Takes};

    /// A side that has sent nothing yet and asks for the gateway's address.
    pub fn new(address: Ip4) -> IpcpAsk
        ensures { result ≡ record { wanted = record { address = Some address }; sent = None } }
    {
        IpcpAsk {
            wanted: IpcpOptions {
                address: Some(address),
            },
            sent: None,
        }
    }

    /// What the next Configure-Request asks for.
    pub fn wanted(&self) -> IpcpOptions
        ensures { result ≡ self.now.wanted }
    {
        self.wanted
    }

    /// Writes the Configure-Request with this Identifier, as an IPCP packet, and keeps what it asked for.
    pub fn request(&mut self, id: u8, into: &mut Frame)
        ensures text { into.new ≡ record {
          payload = packet_text (record { code = CONFIGURE_REQUEST; id = id; body = options_text (asked_of self.old.wanted) });
          headroom = HEADROOM;
        } }
        ensures sent { self.new ≡ record self.old { sent = Some (record { id = id; options = self.old.wanted }) } }
    {
        let wanted = self.wanted;
        let list = asked(&wanted);
        let mut body = Frame::new();
        put_made(list.as_slice(), &mut body);
        let request = Packet {
            code: CONFIGURE_REQUEST,
            id,
            body: body.payload(),
        };
        let _done = request.write(into);
        self.sent = Some(SentIpcpRequest {
            id,
            options: wanted,
        });
    }

    /// Takes a reply to the last Configure-Request (RFC 1661 sections 5.2 to 5.4).
    ///
    /// A Configure-Ack counts where it has the identifier and the options of the last request. A Configure-Reject counts
    /// where it has that identifier and those of its options whose types it names; an option that it names is asked for
    /// no longer. A Configure-Nak counts where it has that identifier, and changes nothing. All else is Ignored. The
    /// random octets are not used.
    pub fn on_reply(&mut self, reply: &Packet<'_>, _random: &[u8; 16]) -> Taken
        ensures { Takes result self.old (packet_of reply.now) self.new }
    {
        let Some(sent) = self.sent else {
            return Taken::Ignored;
        };
        let asked = asked(&sent.options);
        match read_reply(sent.id, asked.as_slice(), reply) {
            ConfigureReply::Ack => Taken::Accepted,
            ConfigureReply::Nak(_) => Taken::Changed,
            ConfigureReply::Reject(rejected) => {
                self.wanted = left_out(&self.wanted, rejected.as_slice());
                Taken::Changed
            }
            ConfigureReply::Other => Taken::Ignored,
        }
    }
}

//! The subscriber's side of IPCP (RFC 1332 section 3).
use crate::asking::Asking;
use crate::packet::control_frame;
use crate::subscriber::{SubscriberStage, Subscriber};
use bng_base::{Frame, Ip4};
use bng_ppp_wire::code::{CONFIGURE_ACK, CONFIGURE_REQUEST};
use bng_ppp_wire::{MadeOpt, Opt, Packet, ConfigureReply, made, protocol, put_made, read_reply};

const IP_ADDRESS: u8 = 3;

/// The address that a Configure-Nak suggests.
fn suggested(options: &[Opt<'_>]) -> Option<Ip4> {
    for option in options {
        if let (IP_ADDRESS, [a, b, c, d]) = (option.kind, option.value) {
            return Some(Ip4(u32::from_be_bytes([*a, *b, *c, *d])));
        }
    }
    None
}

impl Subscriber {
    fn ipcp_options(&self) -> [MadeOpt; 1] {
        [made(IP_ADDRESS, &self.address.0.to_be_bytes())]
    }

    /// Its Configure-Request: first with no address, then with the one that was suggested.
    pub(crate) fn ipcp_request(&self) -> Frame {
        let mut body = Frame::new();
        put_made(&self.ipcp_options(), &mut body);
        control_frame(protocol::IPCP, CONFIGURE_REQUEST, self.id, body.payload())
    }

    /// Takes a packet of IPCP.
    pub(crate) fn hear_ipcp(&mut self, packet: &Packet<'_>) {
        if self.stage != SubscriberStage::Addressing {
            return;
        }
        if packet.code == CONFIGURE_REQUEST {
            self.owe(protocol::IPCP, CONFIGURE_ACK, packet.id, packet.body);
            self.has_acked = true;
            self.try_to_exchange();
            return;
        }
        match read_reply(self.id, &self.ipcp_options(), packet) {
            ConfigureReply::Ack => {
                self.is_acked = true;
                self.asking = Asking::Nothing;
                self.try_to_exchange();
            }
            ConfigureReply::Nak(options) => self.take_address(options.as_slice()),
            ConfigureReply::Reject(_) | ConfigureReply::Other => {}
        }
    }

    // A Configure-Request whose options changed has another Identifier (RFC 1661 section 5.1).
    fn take_address(&mut self, options: &[Opt<'_>]) {
        if let Some(address) = suggested(options) {
            self.address = address;
            self.id = self.id.wrapping_add(1);
            self.asking = Asking::ToSend;
        }
    }

    // Where IPCP is open, it sends its first packet.
    fn try_to_exchange(&mut self) {
        if self.is_acked && self.has_acked {
            self.enter(SubscriberStage::Exchanging, Asking::ToSend);
        }
    }
}

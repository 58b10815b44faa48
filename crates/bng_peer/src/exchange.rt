//! The packets that a subscriber and the core send each other, one after the other in each direction.
ghost use Rattle.std.specs.Prelude.{◌≡◌, ℕ, List};
ghost use Rattle.bng_base.specs.Ipv4Grammar.{IsIpv4};
ghost use Rattle.bng_peer.specs.Frames.{IsPacketFrame};
ghost use Rattle.bng_peer.specs.Script.{packet_up, packet_down};

use crate::asking::Asking;
use crate::packet::{ipv4_packet, number_in, ppp_frame};
use crate::script::{HOST, octets_down, octets_up, packets_down, packets_up};
use crate::subscriber::{SubscriberStage, Subscriber};
use bng_base::Frame;
use bng_ppp_wire::protocol;

impl Subscriber {
    /// The PPP frame of its next packet.
    pub(crate) fn packet(&self) -> Frame
        ensures { IsPacketFrame (packet_up self.now.number self.now.address) result.payload }
    {
        let total = octets_up(self.number);
        let packet = ipv4_packet(self.address, HOST, total, self.sent);
        ppp_frame(protocol::IPV4, &packet)
    }

    /// The next packet that the core sends it.
    pub(crate) fn core_packet(&mut self) -> Frame
        ensures { IsIpv4 (packet_down self.old.number self.old.address) result.payload }
    {
        self.core_asking = Asking::Sent;
        let total = octets_down(self.number);
        ipv4_packet(HOST, self.address, total, self.received)
    }

    /// A packet of it reached the core. After the first one the core sends it packets too.
    pub(crate) fn reach_core(&mut self, packet: &[u8]) {
        if self.stage != SubscriberStage::Exchanging || number_in(packet) != Some(self.sent) {
            return;
        }
        if self.sent == 0 && packets_down(self.number) > 0 {
            self.core_asking = Asking::ToSend;
        }
        self.sent = self.sent.saturating_add(1);
        self.asking = if self.sent < packets_up(self.number) {
            Asking::ToSend
        } else {
            Asking::Nothing
        };
        self.try_to_rest();
    }

    /// Takes a packet of the core.
    pub(crate) fn hear_packet(&mut self, packet: &[u8]) {
        if self.stage != SubscriberStage::Exchanging || number_in(packet) != Some(self.received) {
            return;
        }
        self.received = self.received.saturating_add(1);
        self.core_asking = if self.received < packets_down(self.number) {
            Asking::ToSend
        } else {
            Asking::Nothing
        };
        self.try_to_rest();
    }

    fn try_to_rest(&mut self) {
        if self.sent == packets_up(self.number) && self.received == packets_down(self.number) {
            self.enter(SubscriberStage::Resting, Asking::Nothing);
        }
    }
}

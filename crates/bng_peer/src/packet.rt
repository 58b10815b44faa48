//! Packets and frames as octets.
ghost use Rattle.std.specs.Prelude.{◌≡◌, ◌≤◌, ℕ, List, length};
ghost use Rattle.bng_base.specs.Ipv4Grammar.{IsIpv4};
ghost use Rattle.bng_base.specs.PppGrammar.{IsPpp};
ghost use Rattle.bng_peer.specs.Script.{packet_of};
ghost use Rattle.bng_peer.specs.Frames.{IsControlFrame};

use crate::script::put;
use arrayvec::ArrayVec;
use bng_base::{Frame, Ip4, Ipv4, LONGEST, Written};
use bng_ppp_wire::{Packet, Ppp};

/// The body of a packet of a control protocol. Longer ones are cut.
pub(crate) type Body = ArrayVec<u8, 64>;

/// Puts octets behind those of a body, as many as it has room for.
pub(crate) fn put_all(body: &mut Body, octets: &[u8]) {
    for octet in octets {
        put(body, *octet);
    }
}

/// A body of these octets, as many as it has room for.
pub(crate) fn body_of(octets: &[u8]) -> Body {
    let mut body = ArrayVec::new();
    put_all(&mut body, octets);
    body
}

/// Fills a frame with octets. More than fit a frame are none.
pub(crate) fn fill(into: &mut Frame, octets: &[u8])
    ensures { into.new.headroom ≡ 64 }
{
    if octets.len() <= LONGEST {
        into.set(octets);
    } else {
        into.set(&[]);
    }
}

/// A packet of a control protocol in its PPP frame.
pub(crate) fn control_frame(protocol: u16, code: u8, id: u8, body: &[u8]) -> Frame
    requires { length body.now ≤ 1000 }
    ensures { IsControlFrame protocol (record { code = code; id = id; body = body.now }) result.payload }
{
    let mut text = Frame::new();
    match (Packet { code, id, body }).write(&mut text) {
        Written::Done => {}
        Written::Full => unreachable!(),
    }
    ppp_frame(protocol, &text)
}

/// A PPP frame with this payload.
pub(crate) fn ppp_frame(protocol: u16, text: &Frame) -> Frame
    requires { length text.now.payload ≤ 1004 }
    ensures { IsPpp (record { protocol = protocol; info = text.now.payload }) result.payload }
{
    let ppp = Ppp {
        protocol,
        info: text.payload(),
    };
    let mut frame = Frame::new();
    match ppp.write(&mut frame) {
        Written::Done => {}
        Written::Full => unreachable!(),
    }
    frame
}

/// The number of a packet among those of its direction, which stands behind its header.
const NUMBER_AT: usize = 20;

/// An IPv4 packet of so many octets, whose header is followed by a number (RFC 791 section 3.1).
#[tactic(auto, using(crate::proofs::Header::can_be_written))]
pub(crate) fn ipv4_packet(src: Ip4, dst: Ip4, total: u16, number: u8) -> Frame
    requires some { 100 ≤ total }
    requires few { total ≤ 300 }
    ensures packet { IsIpv4 (packet_of src dst total) result.payload }
    ensures size { length result.payload ≡ total }
{
    let (Ip4(_src), Ip4(_dst)) = (src, dst);
    let header = Ipv4 {
        src,
        dst,
        ttl: 64,
        header: 20,
        total,
    };
    let mut frame = Frame::new();
    match bng_ipv4::write(&header, &mut frame) {
        Written::Done => {}
        Written::Full => unreachable!(),
    }
    put_number(&mut frame, number);
    frame
}

/// Writes the number of a packet.
fn put_number(frame: &mut Frame, number: u8)
    requires { 21 ≤ length frame.old.payload }
    ensures packet { (v : Ipv4) → v.header ≡ 20 → IsIpv4 v frame.old.payload → IsIpv4 v frame.new.payload }
    ensures size { length frame.new.payload ≡ length frame.old.payload }
{
    frame.overwrite(NUMBER_AT, &[number]);
}

/// The number of a packet.
pub(crate) fn number_in(packet: &[u8]) -> Option<u8> {
    Some(*packet.get(NUMBER_AT)?)
}

ghost use Rattle.std.specs.Prelude.{◌≡◌, ◌+◌, ◌<◌, ◌≤◌, ◌++◌, length, map, option_to_list, None};
ghost use Rattle.bng_l2tp_reliable.specs.ChannelState.{IsChannel};
ghost use Rattle.bng_l2tp_reliable.specs.Calls.{next_out};
ghost use Rattle.arrayvec.specs.ArrayVec.{array_vec_len};
ghost use Rattle.bng_l2tp_wire.specs.View.{payloads};
ghost use Rattle.bng_l2tp_tunnel.specs.Outs.{datagram as datagram_to, after_out, let_out as lets_out, AreFirstWaiting, flight_before, with_zlb, outs_of as outs_to, flight_most, zlb as zlb_of};

use crate::acknowledging::Acknowledging;
use arrayvec::ArrayVec;
use bng_base::Frame;
use bng_l2tp_reliable::{Channel, IN_FLIGHT_MOST, Outgoing};
use bng_l2tp_wire::spelling::spelled;
use bng_l2tp_wire::step::Outs;

// The octets of a control message header (RFC 2661 section 3.1).
const HEADER: usize = 12;
// Where Tunnel ID and Ns stand in it.
const TUNNEL_AT: usize = 4;

const NS_AT: usize = 8;

/// A message of the channel as it goes out to a tunnel of the peer (RFC 2661 section 3.1).
#[tactic(auto, unfolding(crate::specs::Outs::datagram))]
pub fn datagram(tunnel: u16, out: &Outgoing) -> Frame
    ensures { result.payload ≡ datagram_to tunnel out.now }
{
    let mut frame = Frame::new();
    frame.set(out.message.as_slice());
    if out.message.len() < HEADER {
        return frame;
    }
    let [ns1, ns0] = out.ns.to_be_bytes();
    let [nr1, nr0] = out.nr.to_be_bytes();
    frame.overwrite(TUNNEL_AT, &tunnel.to_be_bytes());
    frame.overwrite(NS_AT, &[ns1, ns0, nr1, nr0]);
    frame
}

fn push_some(outs: &mut Outs, tunnel: u16, out: Option<Outgoing>)
    requires { array_vec_len outs.old < 10 }
    ensures outs { payloads outs.new.items ≡ payloads outs.old.items ++ map (datagram_to tunnel) (option_to_list out) }
    ensures len { array_vec_len outs.new ≤ array_vec_len outs.old + 1 }
{
    if let Some(out) = out {
        outs.push(datagram(tunnel, &out));
    }
}

/// The messages that the window lets out.
#[inline(never)]
pub fn let_out(channel: &mut Channel, tunnel: u16) -> Outs
    ensures outs { payloads result.items ≡ map (datagram_to tunnel) (lets_out flight_most channel.old) }
    ensures first { IsChannel channel.old → AreFirstWaiting channel.old (lets_out flight_most channel.old) }
    ensures few { array_vec_len result ≤ 8 }
    ensures channel { channel.new ≡ after_out flight_most channel.old }
    ensures until { next_out channel.new ≡ None }
{
    let mut outs = ArrayVec::new();
    for _ in 0..IN_FLIGHT_MOST {
        push_some(&mut outs, tunnel, channel.next());
    }
    outs
}

/// The messages in flight, oldest first.
#[inline(never)]
pub fn resent(channel: &Channel, tunnel: u16) -> Outs
    ensures { payloads result.items ≡ map (datagram_to tunnel) (flight_before flight_most channel.now) }
{
    let mut outs = ArrayVec::new();
    for place in 0..8u8 {
        push_some(&mut outs, tunnel, channel.flight(place));
    }
    outs
}

/// A message without AVPs, which only acknowledges (RFC 2661 section 5.8).
pub fn zlb(channel: &Channel, tunnel: u16) -> Frame
    ensures { result.payload ≡ zlb_of tunnel channel.now }
{
    let (ns, nr) = channel.numbers();
    spelled(tunnel, 0, ns, nr, ArrayVec::new())
}

// Puts the ZLB that is due after the datagrams of a step.
fn push_zlb(outs: &mut Outs, channel: &Channel, tunnel: u16, acknowledging: Acknowledging)
    requires { array_vec_len outs.old < 10 }
    ensures { payloads outs.new.items ≡ with_zlb acknowledging tunnel channel.now (payloads outs.old.items) }
{
    match acknowledging {
        Acknowledging::Never => {}
        Acknowledging::ByAny => {
            if outs.is_empty() {
                outs.push(zlb(channel, tunnel));
            }
        }
        Acknowledging::ByZlb => {
            outs.push(zlb(channel, tunnel));
        }
    }
}

/// The datagrams that go out to a tunnel of the peer: the messages that the window lets out, and then the ZLB.
#[inline(never)]
pub fn outs_of(channel: &mut Channel, tunnel: u16, acknowledging: Acknowledging) -> Outs
    ensures outs { payloads result.items ≡ outs_to acknowledging tunnel channel.old }
    ensures channel { channel.new ≡ after_out flight_most channel.old }
    ensures until { next_out channel.new ≡ None }
{
    let mut outs = let_out(channel, tunnel);
    push_zlb(&mut outs, channel, tunnel, acknowledging);
    outs
}

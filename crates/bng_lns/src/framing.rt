ghost use Rattle.std.specs.Prelude.{◌≡◌, ◌-◌, ◌≤◌, ◌++◌, length};
ghost use Rattle.bng_l2tp_wire.specs.Messages.{IsData, data_header};
ghost use Rattle.bng_lns.specs.Framing.{call_message, call_frame, IsCallFrameTo};

use bng_base::Frame;
use bng_l2tp_wire::Data;
use bng_ppp_wire::protocol;

// The octets before the PPP frame of a data message.
fn call_header(tunnel: u16, session: u16, ppp: &[u8]) -> [u8; 8]
    ensures spelled { result ≡ data_header (call_message tunnel session ppp.now) }
    ensures again { 2 ≤ length ppp.now → IsData (call_message tunnel session ppp.now) (result ++ ppp.now) }
{
    let message = Data {
        tunnel,
        session,
        ppp,
    };
    message.header()
}

/// Puts before a packet what makes it a data message to this tunnel and this session of the peer: a header without flags (RFC 2661
/// section 3.1), Address and Control (RFC 1662 section 3.1), and PPP protocol 0021 (RFC 1332).
pub fn put_in_call(tunnel: u16, session: u16, frame: &mut Frame)
    requires room { 10 ≤ frame.old.headroom }
    ensures framed { frame.new.payload ≡ call_frame tunnel session frame.old.payload }
    ensures again { IsCallFrameTo tunnel session frame.old.payload frame.new.payload }
    ensures headroom { frame.new.headroom ≡ frame.old.headroom - 10 }
{
    frame.put_front(&protocol::IPV4.to_be_bytes());
    let header = call_header(tunnel, session, frame.payload());
    frame.put_front(&header);
}

ghost use Rattle.std.specs.Prelude.{◌≡◌, ℕ, ◌+◌, ◌-◌, ◌<◌, ◌≤◌, ◌++◌, List, length};
ghost use Rattle.bng_base.specs.PppoeGrammar.{IsLaidOut, pppoe_header};
ghost use Rattle.bng_forward.specs.Framing.{session_frame, circuit_frame, IsFrameTo, IsFrameWith};

use bng_base::{AccessPort, Frame, Mac, SessionNo};
use bng_ppp_wire::protocol;
use bng_pppoe_wire::{Pppoe, code};

// The octets before the packet in a frame of a session: the headers of PPPoE (RFC 2516 section 4) and of PPP (RFC
// 1661 section 2).
const HEADERS: usize = 22;

// The octets before the payload of a frame of the session stage.
fn session_header(dst: Mac, src: Mac, session: u16, payload: &[u8]) -> [u8; 20]
    requires { length payload.now < 65536 }
    ensures spelled { result ≡ pppoe_header (session_frame dst src session payload.now) }
    ensures laid { IsLaidOut (session_frame dst src session payload.now) (result ++ payload.now) }
{
    let frame = Pppoe {
        dst,
        src,
        discovery: false,
        code: code::SESSION_DATA,
        session,
        payload,
    };
    frame.header()
}

/// Puts before a packet what makes it a frame to the subscriber with this MAC, from the port, in the session with
/// this number: the header of a PPPoE session (RFC 2516 section 4), whose LENGTH counts the octets after it, and PPP
/// protocol 0021 (RFC 1332). There is no padding.
pub fn put_in_frame(port: &AccessPort, mac: Mac, session: SessionNo, frame: &mut Frame)
    requires room { 22 ≤ frame.old.headroom }
    ensures framed { frame.new.payload ≡ circuit_frame port.now mac session.0 frame.old.payload }
    ensures again { IsFrameTo port.now mac session.0 frame.old.payload frame.new.payload }
    ensures headroom { frame.new.headroom ≡ frame.old.headroom - 22 }
{
    frame.put_front(&protocol::IPV4.to_be_bytes());
    let header = session_header(mac, port.mac, session.0, frame.payload());
    frame.put_front(&header);
}

/// Leaves of a frame the packet alone that it carries, of this many octets, as `carried` finds it: the headers before
/// it and the padding after it are cut off.
pub fn take_from_frame(frame: &mut Frame, size: usize)
    requires { (packet : List ℕ) × IsFrameWith packet frame.old.payload × (length packet ≡ size) }
    ensures packet { (packet : List ℕ) → IsFrameWith packet frame.old.payload → frame.new.payload ≡ packet }
    ensures shorter { 22 + length frame.new.payload ≤ length frame.old.payload }
    ensures headroom { frame.new.headroom ≡ frame.old.headroom + 22 }
{
    frame.cut_front(HEADERS);
    let padding = frame.payload().len() - size;
    frame.cut_back(padding);
}

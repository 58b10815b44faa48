//! The attributes that are texts.
ghost use Rattle.std.specs.Prelude.{◌≡◌, ◌+◌, ◌≤◌, ◌++◌, length};
ghost use Rattle.std.specs.Fmt.{decimal};
ghost use Rattle.hex.specs.Hex.{encode_lower};
ghost use Rattle.arrayvec.specs.ArrayVec.{array_vec_len};
ghost use Rattle.bng_acct.specs.Texts.{session_id, station_id, port_id, dotted};

use arrayvec::ArrayVec;
use bng_base::{Circuit, Ip4, Mac, Peer, SessionNo, TermId, TunnelNo};
use hex::encode_to_slice;
use itoa::Buffer;

/// The most octets of a NAS-Port-Id, as `t255.255.255.255:65535/65535/65535`.
pub(crate) const PORT_ID_MOST: usize = 34;

/// The Acct-Session-Id (RFC 2866 section 5.5) of a term, where the run opened at this second.
pub fn session_id(wall: u64, term: TermId) -> [u8; 24]
    ensures { result ≡ session_id wall term }
{
    let [_, _, _, _, a, b, c, d] = wall.to_be_bytes();
    let [e, f] = term.session.0.to_be_bytes();
    let [_, _, g, h, i, j, k, l] = term.serial.to_be_bytes();
    let mut digits = [0; 24];
    let _ = encode_to_slice([a, b, c, d, e, f, g, h, i, j, k, l], &mut digits);
    digits
}

// Two digits for each octet of a MAC.
fn digits_of(mac: Mac) -> [u8; 12]
    ensures { result ≡ encode_lower mac.0 }
{
    let mut digits = [0; 12];
    let _ = encode_to_slice(mac.0, &mut digits);
    digits
}

/// The Calling-Station-Id (RFC 2865 section 5.31) of a MAC.
pub fn station_id(mac: Mac) -> [u8; 17]
    ensures { result ≡ station_id mac.0 }
{
    let [a, b, c, d, e, f, g, h, i, j, k, l] = digits_of(mac);
    [
        a, b, b':', c, d, b':', e, f, b':', g, h, b':', i, j, b':', k, l,
    ]
}

// Appends octets for which there is room.
fn append(text: &mut ArrayVec<u8, 34>, octets: &[u8])
    requires { array_vec_len text.old + length octets.now ≤ PORT_ID_MOST }
    ensures items { text.new.items ≡ text.old.items ++ octets.now }
    ensures size { array_vec_len text.new ≡ array_vec_len text.old + length octets.now }
{
    let _ = text.try_extend_from_slice(octets);
}

fn append_octet(text: &mut ArrayVec<u8, 34>, number: u8)
    requires { array_vec_len text.old + 3 ≤ PORT_ID_MOST }
    ensures items { text.new.items ≡ text.old.items ++ decimal number }
    ensures size { array_vec_len text.new ≤ array_vec_len text.old + 3 }
{
    append(text, Buffer::new().format(number).as_bytes());
}

fn append_number(text: &mut ArrayVec<u8, 34>, number: u16)
    requires { array_vec_len text.old + 5 ≤ PORT_ID_MOST }
    ensures items { text.new.items ≡ text.old.items ++ decimal number }
    ensures size { array_vec_len text.new ≤ array_vec_len text.old + 5 }
{
    append(text, Buffer::new().format(number).as_bytes());
}

fn append_address(text: &mut ArrayVec<u8, 34>, address: Ip4)
    requires { array_vec_len text.old + 15 ≤ PORT_ID_MOST }
    ensures items { text.new.items ≡ text.old.items ++ dotted address.0 }
    ensures size { array_vec_len text.new ≤ array_vec_len text.old + 15 }
{
    let [a, b, c, d] = address.0.to_be_bytes();
    append_octet(text, a);
    append(text, b".");
    append_octet(text, b);
    append(text, b".");
    append_octet(text, c);
    append(text, b".");
    append_octet(text, d);
}

fn pppoe_id(port: u8, mac: Mac, session: SessionNo) -> ArrayVec<u8, 34>
    ensures { result.items ≡ port_id (Circuit.Pppoe port mac session) }
{
    let mut text = ArrayVec::new();
    append(&mut text, b"p");
    append_octet(&mut text, port);
    append(&mut text, b"/");
    append(&mut text, &digits_of(mac));
    append(&mut text, b"/");
    append_number(&mut text, session.0);
    text
}

fn l2tp_id(peer: Peer, tunnel: TunnelNo, session: SessionNo) -> ArrayVec<u8, 34>
    ensures { result.items ≡ port_id (Circuit.L2tp peer tunnel session) }
{
    let mut text = ArrayVec::new();
    append(&mut text, b"t");
    append_address(&mut text, peer.ip);
    append(&mut text, b":");
    append_number(&mut text, peer.port);
    append(&mut text, b"/");
    append_number(&mut text, tunnel.0);
    append(&mut text, b"/");
    append_number(&mut text, session.0);
    text
}

/// The NAS-Port-Id (RFC 2869 section 5.17) of a circuit.
pub fn port_id(circuit: Circuit) -> ArrayVec<u8, 34>
    ensures { result.items ≡ port_id circuit }
{
    match circuit {
        Circuit::Pppoe { port, mac, session } => pppoe_id(port, mac, session),
        Circuit::L2tp {
            peer,
            tunnel,
            session,
        } => l2tp_id(peer, tunnel, session),
    }
}

ghost use Rattle.std.specs.Prelude.{◌≡◌, ◌+◌, ◌≤◌, length, slice_range, MatchOption};
ghost use Rattle.byteorder.specs.Endian.{big_from};
ghost use Rattle.bng_base.specs.PppoeGrammar.{PppoeFrame, IsLaidOut, ether_type};
ghost use Rattle.bng_pppoe_wire.specs.View.{frame_of};

use crate::view::Pppoe;
use bng_base::Mac;
use byteorder::{BigEndian, ByteOrder};

const DISCOVERY: u16 = 0x8863;

const SESSION: u16 = 0x8864;

pub(crate) const VERSION_AND_TYPE: u8 = 0x11;

/// The ETHER_TYPE of a frame.
pub(crate) fn ether_type(discovery: bool) -> u16
    ensures { result ≡ ether_type discovery }
{
    if discovery { DISCOVERY } else { SESSION }
}

fn u16_at(bytes: &[u8], at: usize) -> u16
    requires { at + 2 ≤ length bytes.now }
    ensures { result ≡ big_from at 2 bytes.now }
{
    BigEndian::read_u16(&bytes[at..at + 2])
}

fn mac_at(bytes: &[u8], at: usize) -> Mac
    requires { at + 6 ≤ length bytes.now }
    ensures { result.0 ≡ slice_range bytes.now at (at + 6) }
{
    let mut octets = [0; 6];
    octets.copy_from_slice(&bytes[at..at + 6]);
    Mac(octets)
}

/// The frame at the front of the octets, whatever its payload is.
pub(crate) fn laid_out(bytes: &[u8]) -> Option<Pppoe<'_>>
    ensures { MatchOption result ((p : PppoeFrame) → ¬ (IsLaidOut p bytes.now)) (λ p. IsLaidOut (frame_of p) bytes.now) }
{
    if bytes.len() < 20 || bytes[14] != VERSION_AND_TYPE {
        return None;
    }
    let discovery = match u16_at(bytes, 12) {
        DISCOVERY => true,
        SESSION => false,
        _ => return None,
    };
    let end = 20 + usize::from(u16_at(bytes, 18));
    if bytes.len() < end {
        return None;
    }
    Some(Pppoe {
        dst: mac_at(bytes, 0),
        src: mac_at(bytes, 6),
        discovery,
        code: bytes[15],
        session: u16_at(bytes, 16),
        payload: &bytes[20..end],
    })
}

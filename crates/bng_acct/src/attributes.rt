//! Attributes that are written one after the other, those that the requests of a session share among them.
ghost use Rattle.std.specs.Prelude.{◌≡◌, ◌≢◌, ◌+◌, ◌≤◌, ◌∷◌, ◌++◌, [], length, take, drop};
ghost use Rattle.byteorder.specs.Endian.{big_bytes};
ghost use Rattle.bng_acct.specs.Attributes.{octets, number, station, GoesOn};

use crate::texts::station_id;
use bng_base::{Circuit, Frame};
use bng_radius_wire::kinds;

/// The Service-Type Framed (RFC 2865 section 5.6).
pub const FRAMED: u32 = 2;

/// The Framed-Protocol PPP (RFC 2865 section 5.7).
pub const PPP: u32 = 1;

/// The NAS-Port-Type Virtual (RFC 2865 section 5.41).
pub const VIRTUAL: u32 = 5;

/// Writes an attribute after what stands in a frame (RFC 2865 section 5): its type, its length, and a value of 253 octets
/// at most. It is no Message-Authenticator, and the frame has room for it.
pub fn put(into: &mut Frame, kind: u8, value: &[u8])
    requires size { length value.now ≤ 253 }
    requires kind { kind ≢ 80 }
    requires room { into.old.headroom + length into.old.payload + length value.now + 2 ≤ 4160 }
    ensures goes_on { GoesOn into.old.payload into.new.payload (octets kind value.now ∷ []) }
    ensures size { length into.new.payload ≡ length into.old.payload + 2 + length value.now }
    ensures headroom { into.new.headroom ≡ into.old.headroom }
{
    into.put_back(&[kind, (2 + value.len()) as u8]);
    into.put_back(value);
}

/// Writes an attribute whose value is a number of four octets.
pub fn put_number(into: &mut Frame, kind: u8, value: u32)
    requires kind { kind ≢ 80 }
    requires room { into.old.headroom + length into.old.payload + 6 ≤ 4160 }
    ensures goes_on { GoesOn into.old.payload into.new.payload (number kind value ∷ []) }
    ensures size { length into.new.payload ≡ length into.old.payload + 6 }
    ensures headroom { into.new.headroom ≡ into.old.headroom }
{
    put(into, kind, &value.to_be_bytes());
}

/// Writes the Calling-Station-Id (RFC 2865 section 5.31) of a circuit that has a MAC.
pub fn put_station(circuit: Circuit, into: &mut Frame)
    requires headroom { into.old.headroom ≡ 64 }
    requires room { length into.old.payload ≤ 800 }
    ensures goes_on { GoesOn into.old.payload into.new.payload (station circuit) }
    ensures size { length into.new.payload ≤ length into.old.payload + 19 }
    ensures headroom { into.new.headroom ≡ 64 }
{
    match circuit {
        Circuit::Pppoe { mac, .. } => put(into, kinds::CALLING_STATION_ID, &station_id(mac)),
        Circuit::L2tp { .. } => {}
    }
}

/// Writes the Length (RFC 2865 section 3) of the packet that a frame holds, of 20 to 1,024 octets.
pub fn put_length(into: &mut Frame)
    requires header { 20 ≤ length into.old.payload }
    requires size { length into.old.payload ≤ 1024 }
    ensures payload { into.new.payload ≡ take 2 into.old.payload ++ big_bytes 2 (length into.old.payload) ++ drop 4 into.old.payload }
    ensures headroom { into.new.headroom ≡ into.old.headroom }
{
    let length = into.payload().len() as u16;
    into.overwrite(2, &length.to_be_bytes());
}

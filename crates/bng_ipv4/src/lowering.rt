ghost use Rattle.std.specs.Prelude.{◌≡◌, ◌≤◌, ◌-◌, length, drop};
ghost use Rattle.bng_base.specs.Ipv4Grammar.{IsIpv4};
ghost use Rattle.bng_base.specs.Lowering.{lowered};

use crate::checksum::sum_from;
use bng_base::{Frame, Ipv4};

/// Lowers the TTL of the packet by one and computes the header checksum again (RFC 791 section 3.1). Nothing else of the
/// packet changes, and the octets past its total length stay.
pub fn lower_ttl(frame: &mut Frame)
    requires { (v : Ipv4) × IsIpv4 v frame.old.payload × (2 ≤ v.ttl) }
    ensures payload { frame.new.payload ≡ lowered frame.old.payload }
    ensures headroom { frame.new.headroom ≡ frame.old.headroom }
    ensures size { length frame.new.payload ≡ length frame.old.payload }
    // from the source address on
    ensures rest { drop 12 frame.new.payload ≡ drop 12 frame.old.payload }
    ensures again { (v : Ipv4) → IsIpv4 v frame.old.payload → IsIpv4 (record v { ttl = v.ttl - 1 }) frame.new.payload }
{
    let bytes = frame.payload();
    let header = 4 * usize::from(bytes[0] % 16);
    let (ttl, protocol) = (bytes[8] - 1, bytes[9]);
    let before = sum_from(sum_from(0, &bytes[..8]), &[ttl, protocol]);
    let sum = sum_from(before, &bytes[12..header]);
    let [high, low] = (65535 - sum).to_be_bytes();
    frame.overwrite(8, &[ttl, protocol, high, low]);
}

ghost use Rattle.std.specs.Prelude.{◌≡◌, ◌<◌, ◌≤◌, ◌↔◌, List, ℕ};
ghost use Rattle.bng_base.specs.Ipv4Grammar.{IsIpv4};
ghost use Rattle.bng_ipv4.specs.Spelling.{fields, spelling};

use crate::checksum::sum_from;
use bng_base::{Frame, HEADROOM, Ip4, Ipv4, LONGEST, Written};
use byteorder::{BigEndian, ByteOrder};

/// The fields before the options, with this checksum.
fn fields_of(value: &Ipv4, sum: u16) -> [u8; 20]
    requires { value.now.header ≤ 60 }
    ensures { result ≡ fields value.now sum }
{
    let mut octets = [0; 20];
    octets[0] = 64 + value.header / 4;
    BigEndian::write_u16(&mut octets[2..], value.total);
    octets[8] = value.ttl;
    BigEndian::write_u16(&mut octets[10..], sum);
    BigEndian::write_u32(&mut octets[12..], value.src.0);
    BigEndian::write_u32(&mut octets[16..], value.dst.0);
    octets
}

/// Writes the one spelling of a value that `read` answers for some octets, of any length: the octets that the value does
/// not tell are 0, version and checksum aside. Full comes exactly where its total length is above 4,096 octets; then
/// the frame is as before.
pub fn write(value: &Ipv4, into: &mut Frame) -> Written
    requires { (bytes : List ℕ) × IsIpv4 value.now bytes }
    ensures done { result ≡ Written.Done → into.new ≡ record { payload = spelling value.now; headroom = HEADROOM } }
    ensures full { (result ≡ Written.Full) ↔ (LONGEST < value.now.total) }
    ensures kept { result ≡ Written.Full → into.new ≡ into.old }
    ensures again { result ≡ Written.Done → IsIpv4 value.now into.new.payload }
{
    let Ipv4 {
        src: Ip4(_src),
        dst: Ip4(_dst),
        ttl: _ttl,
        header,
        total,
    } = *value;
    let (header, total) = (usize::from(header), usize::from(total));
    if total > LONGEST {
        return Written::Full;
    }
    let zeros = [0; LONGEST];
    let options = header - 20;
    let sum = sum_from(sum_from(0, &fields_of(value, 0)), &zeros[..options]);
    into.set(&fields_of(value, 65535 - sum));
    into.put_back(&zeros[..total - 20]);
    Written::Done
}

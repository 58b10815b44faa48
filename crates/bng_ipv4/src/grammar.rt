ghost use Rattle.std.specs.Prelude.{◌≡◌, ◌+◌, ◌≤◌, ◌↔◌, length, IfOk, OnErr};
ghost use Rattle.byteorder.specs.Endian.{big_from};
ghost use Rattle.bng_base.specs.Ipv4Grammar.{IsIpv4};

use crate::checksum::sum_from;
use bng_base::{Ip4, Ipv4, ReadError};
use byteorder::{BigEndian, ByteOrder};

fn u16_at(bytes: &[u8], at: usize) -> u16
    requires { at + 2 ≤ length bytes.now }
    ensures { result ≡ big_from at 2 bytes.now }
{
    BigEndian::read_u16(&bytes[at..at + 2])
}

fn u32_at(bytes: &[u8], at: usize) -> u32
    requires { at + 4 ≤ length bytes.now }
    ensures { result ≡ big_from at 4 bytes.now }
{
    BigEndian::read_u32(&bytes[at..at + 4])
}

// the header at the front of the octets
fn header_at(bytes: &[u8]) -> Result<Ipv4, ReadError>
    ensures found { IfOk result (λ v. IsIpv4 v bytes.now) }
    ensures only { (v : Ipv4) → IsIpv4 v bytes.now → result ≡ Ok v }
    ensures outside { OnErr result ((v : Ipv4) → ¬ (IsIpv4 v bytes.now)) }
    ensures never { ¬ (result ≡ Err ReadError.TooMany) }
{
    if bytes.len() < 20 || bytes[0] / 16 != 4 {
        return Err(ReadError::Outside);
    }
    let header = 4 * (bytes[0] % 16);
    let total = u16_at(bytes, 2);
    if header < 20 || total < u16::from(header) || bytes.len() < usize::from(total) {
        return Err(ReadError::Outside);
    }
    if sum_from(0, &bytes[..usize::from(header)]) != 65535 {
        return Err(ReadError::Outside);
    }
    Ok(Ipv4 {
        src: Ip4(u32_at(bytes, 12)),
        dst: Ip4(u32_at(bytes, 16)),
        ttl: bytes[8],
        header,
        total,
    })
}

/// What the header at the front of the octets says (RFC 791 section 3.1). Octets past the total length are padding.
/// Outside comes exactly where the octets begin with no IPv4 packet, TooMany never.
pub fn read(bytes: &[u8]) -> Result<Ipv4, ReadError>
    ensures found { IfOk result (λ v. IsIpv4 v bytes.now) }
    ensures only { (v : Ipv4) → IsIpv4 v bytes.now → result ≡ Ok v }
    ensures outside { (result ≡ Err ReadError.Outside) ↔ ((v : Ipv4) → ¬ (IsIpv4 v bytes.now)) }
    ensures never { ¬ (result ≡ Err ReadError.TooMany) }
{
    header_at(bytes)
}

//! Numbers of protocols in a PPP frame (RFC 1661 section 2, RFC 1332, RFC 1334 and RFC 1994).
ghost use Rattle.std.specs.Prelude.{◌≡◌};
ghost use Rattle.bng_ppp_wire.specs.Protocols as standard;

/// Internet Protocol version 4.
pub const IPV4: u16 = 0x0021;
/// Internet Protocol Control Protocol.
pub const IPCP: u16 = 0x8021;
/// Link Control Protocol.
pub const LCP: u16 = 0xc021;
/// Password Authentication Protocol.
pub const PAP: u16 = 0xc023;
/// Challenge Handshake Authentication Protocol.
pub const CHAP: u16 = 0xc223;

/// Each of these numbers is the one that its standard gives.
pub fn are_standard()
    ensures ipv4 { IPV4 ≡ standard.ipv4 }
    ensures ipcp { IPCP ≡ standard.ipcp }
    ensures lcp { LCP ≡ standard.lcp }
    ensures pap { PAP ≡ standard.pap }
    ensures chap { CHAP ≡ standard.chap }
{}

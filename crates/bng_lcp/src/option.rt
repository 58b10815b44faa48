//! Types of LCP's configuration options (RFC 1661 section 6) that the gateway negotiates, and their numbers.
ghost use Rattle.std.specs.Prelude.{◌≡◌};
ghost use Rattle.bng_lcp.specs.Options as standard;

pub const MAXIMUM_RECEIVE_UNIT: u8 = 1;

pub const AUTHENTICATION_PROTOCOL: u8 = 3;

pub const MAGIC_NUMBER: u8 = 5;

/// The smallest Maximum-Receive-Unit that is taken, in octets.
pub const LEAST_MRU: u16 = 128;
/// The algorithm MD5 of CHAP (RFC 1994 section 3).
pub const CHAP_WITH_MD5: u8 = 5;

/// Each of these numbers is the one that its standard gives, and the smallest Maximum-Receive-Unit is 128.
pub fn are_standard()
    ensures maximum_receive_unit { MAXIMUM_RECEIVE_UNIT ≡ standard.maximum_receive_unit }
    ensures authentication_protocol { AUTHENTICATION_PROTOCOL ≡ standard.authentication_protocol }
    ensures magic_number { MAGIC_NUMBER ≡ standard.magic_number }
    ensures least_mru { LEAST_MRU ≡ standard.least_mru }
    ensures chap_with_md5 { CHAP_WITH_MD5 ≡ standard.chap_with_md5 }
{}

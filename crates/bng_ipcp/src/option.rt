//! Types of IPCP's configuration options that the gateway negotiates. The data of each is one address.
ghost use Rattle.std.specs.Prelude.{◌≡◌};
ghost use Rattle.bng_ipcp.specs.Options as standard;

/// IP-Address (RFC 1332 section 3.3).
pub const IP_ADDRESS: u8 = 3;
/// Primary DNS Server Address (RFC 1877 section 1.1).
pub const PRIMARY_DNS: u8 = 129;
/// Secondary DNS Server Address (RFC 1877 section 1.3).
pub const SECONDARY_DNS: u8 = 131;

/// Each of these types is the one that its standard gives.
pub fn are_standard()
    ensures ip_address { IP_ADDRESS ≡ standard.ip_address }
    ensures primary_dns { PRIMARY_DNS ≡ standard.primary_dns }
    ensures secondary_dns { SECONDARY_DNS ≡ standard.secondary_dns }
{}

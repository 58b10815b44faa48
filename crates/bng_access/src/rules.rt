use arrayvec::ArrayVec;
use bng_base::Ip4;

/// What an Access-Request says of the gateway: NAS-Identifier and NAS-IP-Address (RFC 2865 sections 5.32 and 5.4).
#[derive(Drop)]
pub struct NasRules {
    pub name: ArrayVec<u8, 64>,
    pub nas_ip: Ip4,
}

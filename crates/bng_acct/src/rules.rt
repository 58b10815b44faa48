use arrayvec::ArrayVec;
use bng_base::Ip4;

/// For how many terms a spool has room, the second of the wall clock at which the run opened, and the gateway's
/// NAS-Identifier and NAS-IP-Address (RFC 2865 sections 5.32 and 5.4).
#[derive(Drop)]
pub struct AcctRules {
    pub terms: u32,
    pub wall: u64,
    pub name: ArrayVec<u8, 64>,
    pub nas_ip: Ip4,
}

/// Why a spool was not opened.
#[derive(Clone, Copy, Debug)]
pub enum SpoolError {
    OutOfMemory,
}

//! TAG_TYPEs of discovery frames (RFC 2516 appendix A).
ghost use Rattle.std.specs.Prelude.{◌≡◌};
ghost use Rattle.bng_pppoe_wire.specs.TagTypes as standard;

pub const END_OF_LIST: u16 = 0x0000;

pub const SERVICE_NAME: u16 = 0x0101;

pub const AC_NAME: u16 = 0x0102;

pub const HOST_UNIQ: u16 = 0x0103;

pub const AC_COOKIE: u16 = 0x0104;

pub const VENDOR_SPECIFIC: u16 = 0x0105;

pub const RELAY_SESSION_ID: u16 = 0x0110;

pub const SERVICE_NAME_ERROR: u16 = 0x0201;

pub const AC_SYSTEM_ERROR: u16 = 0x0202;

pub const GENERIC_ERROR: u16 = 0x0203;

/// Each of these types is the one that RFC 2516 gives.
pub fn are_standard()
    ensures end_of_list { END_OF_LIST ≡ standard.end_of_list }
    ensures service_name { SERVICE_NAME ≡ standard.service_name }
    ensures ac_name { AC_NAME ≡ standard.ac_name }
    ensures host_uniq { HOST_UNIQ ≡ standard.host_uniq }
    ensures ac_cookie { AC_COOKIE ≡ standard.ac_cookie }
    ensures vendor_specific { VENDOR_SPECIFIC ≡ standard.vendor_specific }
    ensures relay_session_id { RELAY_SESSION_ID ≡ standard.relay_session_id }
    ensures service_name_error { SERVICE_NAME_ERROR ≡ standard.service_name_error }
    ensures ac_system_error { AC_SYSTEM_ERROR ≡ standard.ac_system_error }
    ensures generic_error { GENERIC_ERROR ≡ standard.generic_error }
{}

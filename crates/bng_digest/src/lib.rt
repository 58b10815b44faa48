//! The digests of the gateway's protocols, each a formula over MD5 (RFC 1321): HMAC-MD5 (RFC 2104),
//! the CHAP value (RFC 1994 section 4.1), the hidden User-Password (RFC 2865 section 5.2) and the
//! hidden AVP (RFC 2661 section 4.3).
#![tactic(auto)]

mod authentication;
mod hiding;
mod mixing;
mod texts;

pub use crate::authentication::{chap_value, hmac_md5, hmac_md5_of};
pub use crate::hiding::{hide_password, unhide_avp};
pub use crate::texts::md5_of;

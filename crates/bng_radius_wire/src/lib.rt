//! RADIUS packets as octets: packets and attributes by RFC 2865 sections 3 and 5, the authenticators of RFC 2865, RFC 2866
//! and RFC 5176, and the Message-Authenticator of RFC 2869 section 5.14. `read` answers exactly the packets that the
//! grammar `IsRadius` relates to the octets; `write` writes the one spelling; `sign_request`, `sign_reply` and
//! `check_reply` are the formulas over MD5 and HMAC-MD5. No call takes memory.
#![tactic(auto)]

mod checking;
pub mod codes;
pub mod kinds;
mod lists;
mod places;
mod reading;
mod signing;
mod views;
mod writing;

pub use crate::checking::{Checked, check_reply};
pub use crate::reading::read;
pub use crate::signing::{sign_reply, sign_request};
pub use crate::views::{Attribute, Radius};
pub use crate::writing::write;
pub use bng_base::{Frame, ReadError, Written};

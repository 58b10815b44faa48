//! How long a term of a subscriber's session lasts, and when its Interim accounting records are due: Session-Timeout and
//! Idle-Timeout (RFC 2865 sections 5.27 and 5.28), Acct-Interim-Interval (RFC 2869 section 5.16), and the value of
//! Acct-Terminate-Cause with which a term ends (RFC 2866 section 5.10).
//!
//! [`Lifetime::look`] answers the cause that holds at a moment, and [`Lifetime::deadline`] says when a look is wanted. A
//! packet that passes does not change a term: the caller keeps the moment of the last one and hands it to `look`, so a
//! deadline may come too early, and never too late.
#![tactic(auto)]

mod law;
mod lifetime;
mod limits;
mod timeout;

pub use crate::law::{
    deadlines_are_not_late, interims_keep_their_interval, looks_go_on, looks_tell_silence,
};
pub use crate::lifetime::Lifetime;
pub use crate::limits::Limits;

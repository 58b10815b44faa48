//! What becomes of replies to the gateway's Configure-Request.
ghost use Rattle.std.specs.Prelude.{◌≡◌};
ghost use Rattle.bng_ppp_wire.specs.View.{options_of};
ghost use Rattle.bng_lcp.specs.ConfigureReply.{left_out as without};

use crate::configure_request::LcpOptions;
use crate::option::{MAGIC_NUMBER, MAXIMUM_RECEIVE_UNIT};
use bng_ppp_wire::{Opt, names};

/// What becomes of a reply to the gateway's Configure-Request.
#[derive(Clone, Copy, PartialEq, Eq, Debug)]
pub enum Taken {
    /// It is the Configure-Ack of the last request.
    Accepted,
    /// It is a Configure-Nak or a Configure-Reject of the last request, and the next one asks for what it left.
    Changed,
    /// It is no reply to the last request: its identifier or its options are not the request's, or it has another code.
    Ignored,
    /// It is a Configure-Reject of the Authentication-Protocol, without which the link cannot be.
    Unwilling,
}

/// What is left of the wanted options where these are asked for no longer.
pub fn left_out(wanted: &LcpOptions, options: &[Opt<'_>]) -> LcpOptions
    ensures { result ≡ without wanted.now (options_of options.now) }
{
    let mut left = *wanted;
    if names(options, MAXIMUM_RECEIVE_UNIT) {
        left.mru = None;
    }
    if names(options, MAGIC_NUMBER) {
        left.magic = None;
    }
    left
}

//! What becomes of replies to the gateway's Configure-Request.
ghost use Rattle.std.specs.Prelude.{◌≡◌};
ghost use Rattle.bng_ppp_wire.specs.View.{options_of};
ghost use Rattle.bng_ipcp.specs.ConfigureReply.{left_out as without};

use crate::configure_request::IpcpOptions;
use crate::option::IP_ADDRESS;
use bng_ppp_wire::{Opt, names};

/// What becomes of a reply to the gateway's Configure-Request.
#[derive(Clone, Copy, PartialEq, Eq, Debug)]
pub enum Taken {
    /// It is the Configure-Ack of the last request.
    Accepted,
    /// It is a Configure-Nak or a Configure-Reject of the last request, and the next one asks for what it left.
    Changed,
    /// It is no reply to the last request: its identifier or its options are not the request's, or it has another code.
    Ignored,
}

/// What is left of the wanted options where these are asked for no longer.
pub fn left_out(wanted: &IpcpOptions, options: &[Opt<'_>]) -> IpcpOptions
    ensures { result ≡ without wanted.now (options_of options.now) }
{
    if names(options, IP_ADDRESS) {
        IpcpOptions { address: None }
    } else {
        *wanted
    }
}

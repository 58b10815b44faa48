ghost use Rattle.std.specs.Prelude.{◌≡◌};
ghost use Rattle.bng_l2tp_tunnel.specs.Spelling.{code_of as code_of_refusal, shut_down as code_of_shut_down};

use bng_l2tp_wire::result_code::{
    NO_RESOURCES, OUT_OF_RANGE, ResultCode, UNKNOWN_AVP, general_error, result_only,
};

/// Why a tunnel is refused (RFC 2661 sections 4.4.2 and 7.2.1). Each is told by a StopCCN.
#[derive(Clone, Copy)]
pub enum TunnelRefusal {
    /// The peer's address is not a configured one.
    NotConfigured,
    /// The Protocol Version is not 1.0.
    WrongVersion,
    /// An AVP that must be known is not.
    UnknownAvp,
    /// An AVP that the message must have is missing or has a wrong length, or a hidden one cannot be read.
    WrongAvp,
    /// A Challenge cannot be answered, or was not answered rightly.
    NotAuthorized,
    /// The tunnel does not take the message in its phase.
    Unexpected,
    /// No tunnel number may be taken.
    NoNumber,
}

// The requester is not authorized.
const UNAUTHORIZED: u16 = 4;
// The protocol version of the requester is not supported.
const UNSUPPORTED_VERSION: u16 = 5;
// The requester is shut down.
const SHUT_DOWN: u16 = 6;
// Finite state machine error.
const STATE_ERROR: u16 = 7;

/// The code of a StopCCN that tells a refusal.
pub fn code_of(refusal: TunnelRefusal) -> ResultCode
    ensures { result ≡ code_of_refusal refusal }
{
    match refusal {
        TunnelRefusal::NotConfigured | TunnelRefusal::NotAuthorized => result_only(UNAUTHORIZED),
        TunnelRefusal::WrongVersion => result_only(UNSUPPORTED_VERSION),
        TunnelRefusal::UnknownAvp => general_error(UNKNOWN_AVP),
        TunnelRefusal::WrongAvp => general_error(OUT_OF_RANGE),
        TunnelRefusal::Unexpected => result_only(STATE_ERROR),
        TunnelRefusal::NoNumber => general_error(NO_RESOURCES),
    }
}

/// The code of a StopCCN of a gateway that shuts down.
pub fn shut_down() -> ResultCode
    ensures { result ≡ code_of_shut_down }
{
    result_only(SHUT_DOWN)
}

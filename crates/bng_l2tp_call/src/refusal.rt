ghost use Rattle.std.specs.Prelude.{◌≡◌};
ghost use Rattle.bng_l2tp_call.specs.Spelling.{code_of as code_of_refusal, administrative as code_of_end};

use bng_l2tp_wire::result_code::{
    OUT_OF_RANGE, ResultCode, UNKNOWN_AVP, general_error, result_only,
};

/// Why a message of a call is refused (RFC 2661 section 4.4.2). Each is told by a CDN.
#[derive(Clone, Copy)]
pub enum CallRefusal {
    /// An AVP that must be known is not.
    UnknownAvp,
    /// An AVP that the message must have is missing or has a wrong length, or a hidden one cannot be read.
    WrongAvp,
    /// The peer wants sequence numbers in the data.
    SequencingRequired,
    /// No session may be taken.
    NoSlot,
}

// Administrative reasons.
const ADMINISTRATIVE: u16 = 3;
// A facility is lacking for now.
const LACKING_FOR_NOW: u16 = 4;
// A facility is lacking for ever.
const LACKING_FOR_EVER: u16 = 5;

/// The code of a CDN that tells a refusal.
pub fn code_of(refusal: CallRefusal) -> ResultCode
    ensures { result ≡ code_of_refusal refusal }
{
    match refusal {
        CallRefusal::UnknownAvp => general_error(UNKNOWN_AVP),
        CallRefusal::WrongAvp => general_error(OUT_OF_RANGE),
        CallRefusal::SequencingRequired => result_only(LACKING_FOR_EVER),
        CallRefusal::NoSlot => result_only(LACKING_FOR_NOW),
    }
}

/// The code of a CDN by which the gateway ends a call.
pub fn administrative() -> ResultCode
    ensures { result ≡ code_of_end }
{
    result_only(ADMINISTRATIVE)
}

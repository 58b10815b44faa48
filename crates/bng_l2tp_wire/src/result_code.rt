//! What a Result Code AVP says (RFC 2661 section 4.4.2), and the Error Codes of a general error.
ghost use Rattle.std.specs.Prelude.{◌≡◌};
ghost use Rattle.bng_l2tp_wire.specs.Spelling.{result_only as only_result, general_error as error_of, code_octets as octets_of_code};

use arrayvec::ArrayVec;

/// A Result Code, and an Error Code where it has one.
#[derive(Clone, Copy)]
pub struct ResultCode {
    /// The Result Code.
    pub code: u16,
    /// The Error Code, if it has one.
    pub error: Option<u16>,
}

// General error, which the Error Code tells.
const GENERAL_ERROR: u16 = 2;

/// A field is out of range.
pub const OUT_OF_RANGE: u16 = 3;
/// There are no resources for the operation.
pub const NO_RESOURCES: u16 = 4;
/// An AVP that must be known is not.
pub const UNKNOWN_AVP: u16 = 8;

/// A Result Code without an Error Code.
pub fn result_only(code: u16) -> ResultCode
    ensures { result ≡ only_result code }
{
    ResultCode { code, error: None }
}

/// Result Code 2, a general error, which the Error Code tells.
pub fn general_error(error: u16) -> ResultCode
    ensures { result ≡ error_of error }
{
    ResultCode {
        code: GENERAL_ERROR,
        error: Some(error),
    }
}

/// The octets of a Result Code AVP.
pub fn code_octets(code: ResultCode) -> ArrayVec<u8, 4>
    ensures { result.items ≡ octets_of_code code }
{
    let mut octets = ArrayVec::new();
    let [r1, r0] = code.code.to_be_bytes();
    octets.push(r1);
    octets.push(r0);
    if let Some(error) = code.error {
        let [e1, e0] = error.to_be_bytes();
        octets.push(e1);
        octets.push(e0);
    }
    octets
}

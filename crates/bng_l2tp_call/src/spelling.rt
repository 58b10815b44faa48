ghost use Rattle.std.specs.Prelude.{◌≡◌, ◌≤◌, length};
ghost use Rattle.bng_l2tp_wire.specs.Messages.{control_text};
ghost use Rattle.bng_l2tp_call.specs.Spelling.{icrp as icrp_of, cdn as cdn_of};

use arrayvec::ArrayVec;
use bng_base::Frame;
use bng_l2tp_wire::kind::{ASSIGNED_SESSION_ID, MESSAGE_TYPE, RESULT_CODE};
use bng_l2tp_wire::message::{CDN, ICRP};
use bng_l2tp_wire::result_code::{ResultCode, code_octets};
use bng_l2tp_wire::spelling::{avp, spelled};

/// The ICRP of the call with this number, for a session of the peer (RFC 2661 section 6.7).
pub fn icrp(session: u16, number: u16) -> Frame
    ensures { result.payload ≡ control_text (icrp_of session number) }
{
    let message = ICRP.to_be_bytes();
    let number = number.to_be_bytes();
    let mut avps = ArrayVec::new();
    avps.push(avp(MESSAGE_TYPE, &message));
    avps.push(avp(ASSIGNED_SESSION_ID, &number));
    spelled(0, session, 0, 0, avps)
}

/// The CDN of the call with this number, 0 where none was made, for a session of the peer (RFC 2661 section 6.12).
pub fn cdn(session: u16, number: u16, code: ResultCode) -> Frame
    ensures text { result.payload ≡ control_text (cdn_of session number code) }
    ensures size { length result.payload ≤ 512 }
{
    let message = CDN.to_be_bytes();
    let number = number.to_be_bytes();
    let code = code_octets(code);
    let mut avps = ArrayVec::new();
    avps.push(avp(MESSAGE_TYPE, &message));
    avps.push(avp(ASSIGNED_SESSION_ID, &number));
    avps.push(avp(RESULT_CODE, code.as_slice()));
    spelled(0, session, 0, 0, avps)
}

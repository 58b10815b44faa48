//! How the gateway spells its control messages (RFC 2661 sections 3.1 and 4.1).
ghost use Rattle.std.specs.Prelude.{◌≡◌, ◌+◌, ◌≤◌, length};
ghost use Rattle.std.specs.List.{AllByRecursion};
ghost use Rattle.bng_l2tp_wire.specs.Avps.{AvpFits, avps_text};
ghost use Rattle.bng_l2tp_wire.specs.Messages.{control_text};
ghost use Rattle.bng_l2tp_wire.specs.Spelling.{avp as must_avp};
ghost use Rattle.bng_l2tp_wire.specs.View.{avp_of, avps_of};

use crate::view::{Avp, Control};
use arrayvec::ArrayVec;
use bng_base::{Frame, LONGEST, Written};

/// The AVPs of a control message.
pub type AvpList<'a> = ArrayVec<Avp<'a>, 64>;

/// An AVP that the peer must know, and that is not hidden (RFC 2661 section 4.1).
pub fn avp<'a>(kind: u16, value: &'a [u8]) -> Avp<'a>
    ensures { avp_of result ≡ must_avp kind value.now }
{
    Avp {
        mandatory: true,
        hidden: false,
        reserved: 0,
        vendor: 0,
        kind,
        value,
    }
}

/// The text of a control message that is known to fit.
pub fn spelled(tunnel: u16, session: u16, ns: u16, nr: u16, avps: AvpList<'_>) -> Frame
    requires fit { AllByRecursion AvpFits (avps_of avps.items) }
    requires short { 12 + length (avps_text (avps_of avps.items)) ≤ LONGEST }
    ensures text { result.payload ≡ control_text (record { tunnel = tunnel; session = session; ns = ns; nr = nr; avps = avps_of avps.entry.items }) }
    ensures size { length result.payload ≡ 12 + length (avps_text (avps_of avps.entry.items)) }
{
    let message = Control {
        tunnel,
        session,
        ns,
        nr,
        avps,
    };
    let mut frame = Frame::new();
    match message.write(&mut frame) {
        Written::Done => frame,
        Written::Full => unreachable!(),
    }
}

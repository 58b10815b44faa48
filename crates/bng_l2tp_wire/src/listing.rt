ghost use Rattle.std.specs.Prelude.{◌≡◌, ◌+◌, ◌*◌, ◌≤◌, ◌++◌, length, IfOk, MatchResult};
ghost use Rattle.std.specs.List.{AllByRecursion};
ghost use Rattle.bng_l2tp_wire.specs.Avps.{AvpFits, AreAvps, avps_text};
ghost use Rattle.bng_l2tp_wire.specs.Reading.{WhyNoAvps};
ghost use Rattle.bng_l2tp_wire.specs.View.{avps_of};

use crate::avp::front;
use crate::view::Avp;
use arrayvec::ArrayVec;
use bng_base::{Frame, ReadError};

/// The AVPs that the octets are, or why they are none.
pub(crate) fn list_of(octets: &[u8]) -> Result<ArrayVec<Avp<'_>, 64>, ReadError>
    ensures answer { MatchResult result (λ v. AreAvps (avps_of v.items) octets.now) (λ e. WhyNoAvps e octets.now) }
    ensures few { IfOk result (λ v. length v.items ≤ 64) }
{
    let mut found = ArrayVec::new();
    let mut many = false;
    let mut rest = octets;
    while let Some((avp, next)) = front(rest) {
        if found.is_full() {
            many = true;
        } else {
            found.push(avp);
        }
        rest = next;
    }
    if !rest.is_empty() {
        return Err(ReadError::Outside);
    }
    if many {
        return Err(ReadError::TooMany);
    }
    Ok(found)
}

/// How many octets the AVPs have together.
pub(crate) fn size_of(avps: &[Avp<'_>]) -> usize
    requires few { length avps.now ≤ 64 }
    requires fit { AllByRecursion AvpFits (avps_of avps.now) }
    ensures size { result ≡ length (avps_text (avps_of avps.now)) }
    ensures small { result ≤ 1023 * 64 }
{
    let mut size = 0;
    for avp in avps {
        size += 6 + avp.value.len();
    }
    size
}

/// Puts the AVPs after what stands in a frame.
pub(crate) fn put_all(avps: &[Avp<'_>], into: &mut Frame)
    requires fit { AllByRecursion AvpFits (avps_of avps.now) }
    requires room { 64 + length into.old.payload + length (avps_text (avps_of avps.now)) ≤ 4160 }
    requires headroom { into.old.headroom ≡ 64 }
    ensures payload { into.new.payload ≡ into.old.payload ++ avps_text (avps_of avps.now) }
    ensures headroom { into.new.headroom ≡ 64 }
{
    for avp in avps {
        avp.put(into);
    }
}

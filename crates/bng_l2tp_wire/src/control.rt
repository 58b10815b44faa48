ghost use Rattle.std.specs.Prelude.{◌≡◌, ◌+◌, ◌<◌, ◌≤◌, ◌↔◌, length, IfOk, IsOkAnd, MatchResult};
ghost use Rattle.std.specs.List.{AllByRecursion};
ghost use Rattle.bng_l2tp_wire.specs.Avps.{AvpFits, avps_text};
ghost use Rattle.bng_l2tp_wire.specs.Messages.{ControlMessage, IsControl, control_header, control_text};
ghost use Rattle.bng_l2tp_wire.specs.Reading.{WhyNoControl};
ghost use Rattle.bng_l2tp_wire.specs.View.{avps_of, control_of};

use crate::listing::{list_of, put_all, size_of};
use crate::octets::{has_control_bits, u16_at};
use crate::view::Control;
use bng_base::{Frame, HEADROOM, LONGEST, ReadError, Written};

// T, L and S
const CONTROL_BITS: u8 = 0xc8;

const VERSION: u8 = 2;

// the message at the front of the octets, or why there is none
fn control_at(bytes: &[u8]) -> Result<Control<'_>, ReadError>
    ensures answer { MatchResult result (λ m. IsControl (control_of m) bytes.now) (λ e. WhyNoControl e bytes.now) }
    ensures few { IfOk result (λ m. length m.avps.items ≤ 64) }
{
    if bytes.len() < 12 || !has_control_bits(bytes[0]) || bytes[1] % 16 != VERSION {
        return Err(ReadError::Outside);
    }
    let length = usize::from(u16_at(bytes, 2));
    if length < 12 || bytes.len() < length {
        return Err(ReadError::Outside);
    }
    let avps = list_of(&bytes[12..length])?;
    Ok(Control {
        tunnel: u16_at(bytes, 4),
        session: u16_at(bytes, 6),
        ns: u16_at(bytes, 8),
        nr: u16_at(bytes, 10),
        avps,
    })
}

// what stands before the AVPs of a message of this length
fn header(message: &Control<'_>, size: u16) -> [u8; 12]
    requires { size ≡ 12 + length (avps_text (avps_of message.now.avps.items)) }
    ensures { result ≡ control_header (control_of message.now) }
{
    let [l1, l0] = size.to_be_bytes();
    let [t1, t0] = message.tunnel.to_be_bytes();
    let [s1, s0] = message.session.to_be_bytes();
    let [ns1, ns0] = message.ns.to_be_bytes();
    let [nr1, nr0] = message.nr.to_be_bytes();
    [
        CONTROL_BITS,
        VERSION,
        l1,
        l0,
        t1,
        t0,
        s1,
        s0,
        ns1,
        ns0,
        nr1,
        nr0,
    ]
}

impl<'a> Control<'a> {
    /// The control message at the front of the octets. Octets past its Length are padding. Outside comes exactly where the octets
    /// begin with none: where T, L or S is not set, O or P is set, the version is not 2, Length is below 12 or above the octets
    /// present, or what stands between octet 12 and Length is no list of AVPs. TooMany comes exactly where the AVPs are more
    /// than 64.
    pub fn read(bytes: &'a [u8]) -> Result<Control<'a>, ReadError>
        ensures found { IfOk result (λ m. IsControl (control_of m) bytes.now) }
        ensures only { (m : ControlMessage) → IsControl m bytes.now → length m.avps ≤ 64 → IsOkAnd result (λ n. control_of n ≡ m) }
        ensures outside { (result ≡ Err ReadError.Outside) ↔ ((m : ControlMessage) → ¬ (IsControl m bytes.now)) }
        ensures too_many { (result ≡ Err ReadError.TooMany) ↔ ((m : ControlMessage) × IsControl m bytes.now × (64 < length m.avps)) }
    {
        control_at(bytes)
    }

    /// Writes the one spelling of the message. The reserved bits of each AVP are below 16, and its value has 1,017 octets at most.
    /// Full comes exactly where the message has more than 4,096 octets; then `into` is as before.
    pub fn write(&self, into: &mut Frame) -> Written
        requires { AllByRecursion AvpFits (avps_of self.now.avps.items) }
        ensures done { result ≡ Written.Done → into.new ≡ record { payload = control_text (control_of self.now); headroom = HEADROOM } }
        ensures full { (result ≡ Written.Full) ↔ (LONGEST < length (control_text (control_of self.now))) }
        ensures kept { result ≡ Written.Full → into.new ≡ into.old }
        ensures again { result ≡ Written.Done → IsControl (control_of self.now) into.new.payload }
    {
        let size = 12 + size_of(self.avps.as_slice());
        if size > LONGEST {
            return Written::Full;
        }
        into.set(&header(self, size as u16));
        put_all(self.avps.as_slice(), into);
        Written::Done
    }
}

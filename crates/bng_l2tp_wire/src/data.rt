ghost use Rattle.std.specs.Prelude.{◌≡◌, ◌+◌, ◌<◌, ◌≤◌, ◌↔◌, ◌++◌, length, slice_index, IfOk, OnErr, IsOkAnd};
ghost use Rattle.bng_l2tp_wire.specs.Messages.{DataMessage, IsData, ids_at, fields_end, passed_over, starts_at, ends_at, bare, data_header, data_text};
ghost use Rattle.bng_l2tp_wire.specs.View.{data_of};

use crate::octets::{length_bit, offset_bit, sequence_bit, type_bit, u16_at};
use crate::view::Data;
use bng_base::{Frame, HEADROOM, LONGEST, ReadError, Written};

const VERSION: u8 = 2;

// RFC 1662 section 3.1
const ADDRESS: u8 = 0xff;

const CONTROL: u8 = 0x03;

// where Tunnel ID stands
fn ids_at(flags: u8) -> usize
    ensures { result ≡ ids_at flags }
{
    2 + 2 * usize::from(length_bit(flags))
}

// where the fields end of which the flags tell
fn fields_end(flags: u8) -> usize
    ensures { result ≡ fields_end flags }
{
    ids_at(flags) + 4 + 4 * usize::from(sequence_bit(flags)) + 2 * usize::from(offset_bit(flags))
}

// how many octets are passed over after Offset Size
fn passed_over(bytes: &[u8]) -> usize
    requires some { 2 ≤ length bytes.now }
    requires fields { fields_end (slice_index bytes.now 0) ≤ length bytes.now }
    ensures { result ≡ passed_over bytes.now }
{
    let flags = bytes[0];
    if offset_bit(flags) == 1 {
        usize::from(u16_at(
            bytes,
            ids_at(flags) + 4 + 4 * usize::from(sequence_bit(flags)),
        ))
    } else {
        0
    }
}

// where the message ends
fn ends_at(bytes: &[u8]) -> usize
    requires { 4 ≤ length bytes.now }
    ensures { result ≡ ends_at bytes.now }
{
    if length_bit(bytes[0]) == 1 {
        usize::from(u16_at(bytes, 2))
    } else {
        bytes.len()
    }
}

// a payload without Address and Control
fn bare(payload: &[u8]) -> &[u8]
    ensures { result.now ≡ bare payload.now }
{
    if payload.len() >= 2 && payload[0] == ADDRESS && payload[1] == CONTROL {
        &payload[2..]
    } else {
        payload
    }
}

// the message at the front of the octets
fn data_at(bytes: &[u8]) -> Result<Data<'_>, ReadError>
    ensures found { IfOk result (λ d. IsData (data_of d) bytes.now) }
    ensures outside { OnErr result ((d : DataMessage) → ¬ (IsData d bytes.now)) }
    ensures never { ¬ (result ≡ Err ReadError.TooMany) }
{
    if bytes.len() < 6 || type_bit(bytes[0]) == 1 || bytes[1] % 16 != VERSION {
        return Err(ReadError::Outside);
    }
    let fields = fields_end(bytes[0]);
    if bytes.len() < fields {
        return Err(ReadError::Outside);
    }
    let start = fields + passed_over(bytes);
    let end = ends_at(bytes);
    if end < start || bytes.len() < end {
        return Err(ReadError::Outside);
    }
    let ppp = bare(&bytes[start..end]);
    if ppp.len() < 2 {
        return Err(ReadError::Outside);
    }
    let ids = ids_at(bytes[0]);
    Ok(Data {
        tunnel: u16_at(bytes, ids),
        session: u16_at(bytes, ids + 2),
        ppp,
    })
}

impl<'a> Data<'a> {
    /// The data message at the front of the octets. Length, Ns and Nr, Offset Size and its octets, Address and Control may each be
    /// there or not; octets past Length are padding. Outside comes exactly where the octets begin with none: where T is set, the
    /// version is not 2, a field is missing, Length is above the octets present, or fewer than two octets of PPP are left. TooMany
    /// comes never.
    pub fn read(bytes: &'a [u8]) -> Result<Data<'a>, ReadError>
        ensures found { IfOk result (λ d. IsData (data_of d) bytes.now) }
        ensures only { (d : DataMessage) → IsData d bytes.now → IsOkAnd result (λ e. data_of e ≡ d) }
        ensures outside { (result ≡ Err ReadError.Outside) ↔ ((d : DataMessage) → ¬ (IsData d bytes.now)) }
        ensures never { ¬ (result ≡ Err ReadError.TooMany) }
    {
        data_at(bytes)
    }

    /// The octets of the message before its PPP frame. Put before the frame they make the message.
    pub fn header(&self) -> [u8; 8]
        ensures spelled { result ≡ data_header (data_of self.now) }
        ensures again { 2 ≤ length self.now.ppp.now → IsData (data_of self.now) (result ++ self.now.ppp.now) }
    {
        let [t1, t0] = self.tunnel.to_be_bytes();
        let [s1, s0] = self.session.to_be_bytes();
        [0, VERSION, t1, t0, s1, s0, ADDRESS, CONTROL]
    }

    /// Writes the one spelling of the message: no flags, and the PPP frame begun by Address and Control. Full comes exactly where it
    /// has more than 4,096 octets; then `into` is as before. It is read as the same message where the frame has two octets.
    pub fn write(&self, into: &mut Frame) -> Written
        ensures done { result ≡ Written.Done → into.new ≡ record { payload = data_text (data_of self.now); headroom = HEADROOM } }
        ensures full { (result ≡ Written.Full) ↔ (LONGEST < length (data_text (data_of self.now))) }
        ensures kept { result ≡ Written.Full → into.new ≡ into.old }
        ensures again { result ≡ Written.Done → 2 ≤ length self.now.ppp.now → IsData (data_of self.now) into.new.payload }
    {
        if self.ppp.len() > LONGEST - 8 {
            return Written::Full;
        }
        into.set(&self.header());
        into.put_back(self.ppp);
        Written::Done
    }
}

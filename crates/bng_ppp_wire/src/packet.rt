ghost use Rattle.std.specs.Prelude.{◌≡◌, ◌≤◌, ◌<◌, ◌↔◌, length, IfOk, OnErr, IsOkAnd};
ghost use Rattle.bng_base.specs.PppGrammar.{ControlPacket, IsControlPacket, packet_text};
ghost use Rattle.bng_ppp_wire.specs.View.{packet_of};

use crate::view::Packet;
use bng_base::{Frame, HEADROOM, LONGEST, ReadError, Written};

// the packet at the front of the octets
fn packet_at(bytes: &[u8]) -> Result<Packet<'_>, ReadError>
    ensures found { IfOk result (λ p. IsControlPacket (packet_of p) bytes.now) }
    ensures only { (p : ControlPacket) → IsControlPacket p bytes.now → IsOkAnd result (λ q. packet_of q ≡ p) }
    ensures outside { OnErr result ((p : ControlPacket) → ¬ (IsControlPacket p bytes.now)) }
    ensures never { ¬ (result ≡ Err ReadError.TooMany) }
{
    let [code, id, high, low, ..] = bytes else {
        return Err(ReadError::Outside);
    };
    let length = usize::from(u16::from_be_bytes([*high, *low]));
    if length < 4 || bytes.len() < length {
        return Err(ReadError::Outside);
    }
    Ok(Packet {
        code: *code,
        id: *id,
        body: &bytes[4..length],
    })
}

impl<'a> Packet<'a> {
    /// The packet at the front of the octets. Octets past its Length are padding. Outside comes exactly where Length is
    /// below 4 or above the octets present, or is not there, TooMany never.
    pub fn read(bytes: &'a [u8]) -> Result<Packet<'a>, ReadError>
        ensures found { IfOk result (λ p. IsControlPacket (packet_of p) bytes.now) }
        ensures only { (p : ControlPacket) → IsControlPacket p bytes.now → IsOkAnd result (λ q. packet_of q ≡ p) }
        ensures outside { (result ≡ Err ReadError.Outside) ↔ ((p : ControlPacket) → ¬ (IsControlPacket p bytes.now)) }
        ensures never { ¬ (result ≡ Err ReadError.TooMany) }
    {
        packet_at(bytes)
    }

    /// Writes the one spelling of the packet. Full comes exactly where it has more than 4,096 octets; then `into` is as
    /// before.
    pub fn write(&self, into: &mut Frame) -> Written
        ensures done { result ≡ Written.Done → into.new ≡ record { payload = packet_text (packet_of self.now); headroom = HEADROOM } }
        ensures full { (result ≡ Written.Full) ↔ (LONGEST < length (packet_text (packet_of self.now))) }
        ensures kept { result ≡ Written.Full → into.new ≡ into.old }
        ensures again { result ≡ Written.Done → IsControlPacket (packet_of self.now) into.new.payload }
    {
        if self.body.len() > LONGEST - 4 {
            return Written::Full;
        }
        let [high, low] = ((4 + self.body.len()) as u16).to_be_bytes();
        into.set(&[self.code, self.id, high, low]);
        into.put_back(self.body);
        Written::Done
    }
}

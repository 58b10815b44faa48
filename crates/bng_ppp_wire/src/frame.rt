ghost use Rattle.std.specs.Prelude.{◌≡◌, ◌<◌, ◌↔◌, length, IfOk, OnErr, IsOkAnd};
ghost use Rattle.bng_base.specs.PppGrammar.{PppFrame, IsPpp, ppp_text};
ghost use Rattle.bng_ppp_wire.specs.View.{frame_of};

use crate::view::Ppp;
use bng_base::{Frame, HEADROOM, LONGEST, ReadError, Written};

// the frame that the octets are
fn frame_at(bytes: &[u8]) -> Result<Ppp<'_>, ReadError>
    ensures found { IfOk result (λ p. IsPpp (frame_of p) bytes.now) }
    ensures only { (p : PppFrame) → IsPpp p bytes.now → IsOkAnd result (λ q. frame_of q ≡ p) }
    ensures outside { OnErr result ((p : PppFrame) → ¬ (IsPpp p bytes.now)) }
    ensures never { ¬ (result ≡ Err ReadError.TooMany) }
{
    let [high, low, info @ ..] = bytes else {
        return Err(ReadError::Outside);
    };
    Ok(Ppp {
        protocol: u16::from_be_bytes([*high, *low]),
        info,
    })
}

impl<'a> Ppp<'a> {
    /// The frame that the octets are. Outside comes exactly where they are fewer than two, TooMany never.
    pub fn read(bytes: &'a [u8]) -> Result<Ppp<'a>, ReadError>
        ensures found { IfOk result (λ p. IsPpp (frame_of p) bytes.now) }
        ensures only { (p : PppFrame) → IsPpp p bytes.now → IsOkAnd result (λ q. frame_of q ≡ p) }
        ensures outside { (result ≡ Err ReadError.Outside) ↔ ((p : PppFrame) → ¬ (IsPpp p bytes.now)) }
        ensures never { ¬ (result ≡ Err ReadError.TooMany) }
    {
        frame_at(bytes)
    }

    /// Writes the one spelling of the frame. Full comes exactly where it has more than 4,096 octets; then `into` is as
    /// before.
    pub fn write(&self, into: &mut Frame) -> Written
        ensures done { result ≡ Written.Done → into.new ≡ record { payload = ppp_text (frame_of self.now); headroom = HEADROOM } }
        ensures full { (result ≡ Written.Full) ↔ (LONGEST < length (ppp_text (frame_of self.now))) }
        ensures kept { result ≡ Written.Full → into.new ≡ into.old }
        ensures again { result ≡ Written.Done → IsPpp (frame_of self.now) into.new.payload }
    {
        if self.info.len() > LONGEST - 2 {
            return Written::Full;
        }
        into.set(&self.protocol.to_be_bytes());
        into.put_back(self.info);
        Written::Done
    }
}

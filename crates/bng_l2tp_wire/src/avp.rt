ghost use Rattle.std.specs.Prelude.{◌≡◌, ◌+◌, ◌<◌, ◌≤◌, ◌↔◌, ◌++◌, length, IfOk, OnErr, IsOkAnd, MatchOption};
ghost use Rattle.byteorder.specs.Endian.{big_bytes};
ghost use Rattle.bng_l2tp_wire.specs.Avps.{L2tpAvp, AvpFits, Begins, IsAvp, bit, first_word, avp_text};
ghost use Rattle.bng_l2tp_wire.specs.View.{avp_of};

use crate::view::Avp;
use bng_base::{Frame, HEADROOM, ReadError, Written};

fn is_set(field: u16) -> bool
    requires { field < 2 }
    ensures { bit result ≡ field }
{
    field == 1
}

fn bit_of(set: bool) -> u16
    ensures { result ≡ bit set }
{
    if set { 1 } else { 0 }
}

/// The AVP at the front of the octets, and what stands after it.
pub(crate) fn front(bytes: &[u8]) -> Option<(Avp<'_>, &[u8])>
    ensures { MatchOption result ((a : L2tpAvp) → ¬ (IsAvp a bytes.now)) (λ p. Begins (avp_of p.0) p.1.now bytes.now) }
{
    let [w1, w0, v1, v0, k1, k0, after @ ..] = bytes else {
        return None;
    };
    let word = u16::from_be_bytes([*w1, *w0]);
    let size = usize::from(word % 1024);
    if size < 6 || after.len() < size - 6 {
        return None;
    }
    let (value, next) = after.split_at(size - 6);
    let avp = Avp {
        mandatory: is_set(word / 32768),
        hidden: is_set(word / 16384 % 2),
        reserved: (word / 1024 % 16) as u8,
        vendor: u16::from_be_bytes([*v1, *v0]),
        kind: u16::from_be_bytes([*k1, *k0]),
        value,
    };
    Some((avp, next))
}

// the AVP at the front of the octets
fn avp_at(bytes: &[u8]) -> Result<Avp<'_>, ReadError>
    ensures found { IfOk result (λ a. IsAvp (avp_of a) bytes.now) }
    ensures outside { OnErr result ((a : L2tpAvp) → ¬ (IsAvp a bytes.now)) }
    ensures never { ¬ (result ≡ Err ReadError.TooMany) }
{
    match front(bytes) {
        Some((avp, _)) => Ok(avp),
        None => Err(ReadError::Outside),
    }
}

impl<'a> Avp<'a> {
    /// The AVP at the front of the octets. Outside comes exactly where they begin with none: where they are fewer than six, or
    /// Length is below 6 or above the octets present. TooMany comes never.
    pub fn read(bytes: &'a [u8]) -> Result<Avp<'a>, ReadError>
        ensures found { IfOk result (λ a. IsAvp (avp_of a) bytes.now) }
        ensures only { (a : L2tpAvp) → IsAvp a bytes.now → IsOkAnd result (λ b. avp_of b ≡ a) }
        ensures outside { (result ≡ Err ReadError.Outside) ↔ ((a : L2tpAvp) → ¬ (IsAvp a bytes.now)) }
        ensures never { ¬ (result ≡ Err ReadError.TooMany) }
    {
        avp_at(bytes)
    }

    // M, H, the reserved bits and Length
    fn word(&self) -> u16
        requires { AvpFits (avp_of self.now) }
        ensures { result ≡ first_word (avp_of self.now) }
    {
        let flags = 32768 * bit_of(self.mandatory) + 16384 * bit_of(self.hidden);
        flags + 1024 * u16::from(self.reserved) + (6 + self.value.len()) as u16
    }

    // what stands before the value
    fn header(&self) -> [u8; 6]
        requires { AvpFits (avp_of self.now) }
        ensures { result ≡ big_bytes 2 (first_word (avp_of self.now)) ++ big_bytes 2 self.now.vendor ++ big_bytes 2 self.now.kind }
    {
        let [w1, w0] = self.word().to_be_bytes();
        let [v1, v0] = self.vendor.to_be_bytes();
        let [k1, k0] = self.kind.to_be_bytes();
        [w1, w0, v1, v0, k1, k0]
    }

    /// Puts the AVP after what stands in a frame.
    pub(crate) fn put(&self, into: &mut Frame)
        requires fits { AvpFits (avp_of self.now) }
        requires room { into.old.headroom + length into.old.payload + (6 + length self.now.value.now) ≤ 4160 }
        ensures payload { into.new.payload ≡ into.old.payload ++ avp_text (avp_of self.now) }
        ensures headroom { into.new.headroom ≡ into.old.headroom }
    {
        into.put_back(&self.header());
        into.put_back(self.value);
    }

    /// Writes the one spelling of the AVP, which always fits. The reserved bits are below 16, and the value has 1,017 octets at
    /// most.
    pub fn write(&self, into: &mut Frame) -> Written
        requires { AvpFits (avp_of self.now) }
        ensures done { result ≡ Written.Done }
        ensures text { into.new ≡ record { payload = avp_text (avp_of self.now); headroom = HEADROOM } }
        ensures again { IsAvp (avp_of self.now) into.new.payload }
    {
        into.set(&[]);
        self.put(into);
        Written::Done
    }
}

//! Octets as fields.
ghost use Rattle.std.specs.Prelude.{◌≡◌, ◌≢◌, ◌<◌, ◌≤◌, ◌+◌, ◌*◌, ◌^◌, ◌↔◌, ℕ, List, length, take, IfSome, IfNone, IsTrue};
ghost use Rattle.hex.specs.Hex.{encode_lower};
ghost use Rattle.bng_spell.specs.Fields.{octets_text};
ghost use Rattle.bng_spell.specs.Kept.{AreOctets, IsSet};
ghost use Rattle.bng_spell.specs.FieldNames.{encoded_plain, encoded_same, octets_plain, octets_same, frame_same};

use crate::token::Token;
use bng_base::{Frame, HEADROOM, Octets};

/// How many octets are compared at once.
const AT_ONCE: usize = 1024;

// Whether a field is the digits of a few octets, which are made in a room for them.
fn is_made(field: &[u8], octets: &[u8], room: &mut [u8]) -> bool
    requires { length room.old ≡ 2 * length octets.now }
    ensures { IsTrue result ↔ (field.now ≡ encode_lower octets.now) }
{
    let _ = hex::encode_to_slice(octets, room);
    field == room
}

// Whether these are the digits of a few octets.
fn are_few_digits(field: &[u8], octets: &[u8]) -> bool
    requires { length octets.now ≤ AT_ONCE }
    ensures { IsTrue result ↔ (field.now ≡ encode_lower octets.now) }
{
    let mut digits = [0; 2048];
    is_made(field, octets, &mut digits[..2 * octets.len()])
}

/// Whether these are the digits of these octets.
pub(crate) fn are_digits(field: &[u8], octets: &[u8]) -> bool
    ensures { IsTrue result ↔ (field.now ≡ encode_lower octets.now) }
{
    if field.len() != 2 * octets.len() {
        return false;
    }
    let mut at = 0;
    while at < octets.len() {
        let next = octets.len().min(at + AT_ONCE);
        if !are_few_digits(&field[2 * at..2 * next], &octets[at..next]) {
            return false;
        }
        at = next;
    }
    true
}

// Reads digits of as many octets, and says whether they are.
fn read_digits(field: &[u8], octets: &mut [u8]) -> bool
    ensures found { IsTrue result → AreOctets octets.new × (field.now ≡ encode_lower octets.new) }
    ensures all { (bytes : List ℕ) → AreOctets bytes → length bytes ≡ length octets.old → field.now ≡ encode_lower bytes → IsTrue result }
{
    hex::decode_to_slice(field, octets).is_ok() && are_digits(field, octets)
}

// Reads the octets of a field, a dash for none, to the front of a room for them, and says how many they are.
fn octets_in(field: &[u8], room: &mut [u8]) -> Option<usize>
    ensures found { IfSome result (λ n. (n ≤ length room.old) × AreOctets (take n room.new) × (field.now ≡ octets_text (take n room.new))) }
    ensures none { IfNone result ((bytes : List ℕ) → AreOctets bytes → length bytes ≤ length room.old → field.now ≢ octets_text bytes) }
    ensures size { length room.new ≡ length room.old }
{
    if field == b"-".as_slice() {
        return Some(0);
    }
    let length = field.len() / 2;
    if length == 0 {
        return None;
    }
    if length > room.len() {
        return None;
    }
    if read_digits(field, &mut room[..length]) {
        Some(length)
    } else {
        None
    }
}

/// So many octets.
#[derive(Clone, Copy)]
pub(crate) struct Fixed<const N: usize>(pub(crate) [u8; N]);

impl<const N: usize> Token for Fixed<N> {
    ghost fits = { λ f. AreOctets f.0 × (length f.0 ≡ N) };

    ghost name = { λ f. encode_lower f.0 };

    ghost plain = { λ v f. encoded_plain v.0 f.0 };

    ghost injective = { λ v w f g e. let same = encoded_same v.0 w.0 f.0 g.0 e in λ i. record { 0 = same i } };

    fn of(field: &[u8]) -> Option<Fixed<N>> {
        let mut octets = [0; N];
        if read_digits(field, &mut octets) {
            Some(Fixed(octets))
        } else {
            None
        }
    }
}

impl Token for Frame {
    ghost fits = { IsSet };

    ghost name = { λ f. octets_text f.payload };

    ghost plain = { λ v f. octets_plain v.payload f.octets };

    ghost injective = { frame_same };

    fn of(field: &[u8]) -> Option<Frame> {
        let mut octets = [0; 4096];
        let length = octets_in(field, &mut octets)?;
        let mut frame = Frame::new();
        frame.set(&octets[..length]);
        Some(frame)
    }
}

impl Token for Octets {
    ghost fits = { λ o. AreOctets o × (length o ≤ 4160) };

    ghost name = { octets_text };

    ghost plain = { λ v f. octets_plain v f.0 };

    ghost injective = { λ v w f g. octets_same v w f.0 g.0 };

    fn of(field: &[u8]) -> Option<Octets> {
        let mut octets = [0; 4160];
        let length = octets_in(field, &mut octets)?;
        let front = length.min(HEADROOM);
        let mut frame = Frame::new();
        frame.set(&octets[front..length]);
        frame.put_front(&octets[..front]);
        Some(Octets::of(frame))
    }
}

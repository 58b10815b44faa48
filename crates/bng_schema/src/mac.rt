//! The text of an Ethernet address.
ghost use Rattle.std.specs.Prelude.{◌≡◌, ◌≢◌, ◌<◌, ◌≤◌, ◌/◌, ◌%◌, false, ℕ, List, length, IfSome, IfNone};
ghost use Rattle.std.specs.Fmt.{digit_glyph};
ghost use Rattle.std.specs.List.{AllByRecursion};
ghost use Rattle.bng_base.specs.declared.address.Mac.{Mac as Hardware};
ghost use Rattle.bng_schema.specs.Address.{mac_text, octet_text, colon};
ghost use Rattle.toml.specs.View.{view};
ghost use Rattle.bng_schema.specs.Forms.{IsMac};
ghost use Rattle.bng_schema.specs.Parts.{BeginsWithOctet};

use bng_base::Mac;
use toml::Value;

/// The address that the text writes: six pairs of lower-case hexadecimal digits, parted by colons.
pub(crate) fn mac_of(text: &[u8]) -> Option<Mac>
    ensures found { IfSome result (λ m. (text.now ≡ mac_text m) × (length m.0 ≡ 6) × AllByRecursion (λ o. o < 256) m.0) }
    ensures none { IfNone result ((m : Hardware) → length m.0 ≡ 6 → AllByRecursion (λ o. o < 256) m.0 → text.now ≢ mac_text m) }
{
    let (first, rest) = front_of(text)?;
    let (second, rest) = front_of(rest)?;
    let (third, rest) = front_of(rest)?;
    let (fourth, rest) = front_of(rest)?;
    let (fifth, rest) = front_of(rest)?;
    let sixth = octet_of(rest)?;
    Some(Mac([first, second, third, fourth, fifth, sixth]))
}

// Two digits and a colon, and what follows them.
fn front_of(text: &[u8]) -> Option<(u8, &[u8])>
    ensures found { IfSome result (λ r. BeginsWithOctet colon text.now r.0 r.1.now) }
    ensures none { IfNone result ((n : ℕ) (rest : List ℕ) → ¬ BeginsWithOctet colon text.now n rest) }
{
    match text {
        [high, low, b':', rest @ ..] => match pair_of(*high, *low) {
            Some(octet) => Some((octet, rest)),
            None => None,
        },
        _ => None,
    }
}

// Two digits.
fn octet_of(text: &[u8]) -> Option<u8>
    ensures found { IfSome result (λ n. (text.now ≡ octet_text n) × (n < 256)) }
    ensures none { IfNone result ((n : ℕ) → n < 256 → text.now ≢ octet_text n) }
{
    match text {
        [high, low] => pair_of(*high, *low),
        _ => None,
    }
}

fn pair_of(high: u8, low: u8) -> Option<u8>
    ensures octet { IfSome result (λ n. n < 256) }
    ensures found { IfSome result (λ n. (high ≡ digit_glyph false (n / 16)) × (low ≡ digit_glyph false (n % 16))) }
    ensures none { IfNone result ((n : ℕ) → n < 256 → high ≡ digit_glyph false (n / 16) → low ≢ digit_glyph false (n % 16)) }
{
    let high = digit_of(high)?;
    let low = digit_of(low)?;
    Some(high * 16 + low)
}

// The value of a lower-case hexadecimal digit.
fn digit_of(byte: u8) -> Option<u8>
    ensures digit { IfSome result (λ d. d < 16) }
    ensures found { IfSome result (λ d. byte ≡ digit_glyph false d) }
    ensures none { IfNone result ((d : ℕ) → d < 16 → byte ≢ digit_glyph false d) }
{
    match byte {
        b'0'..=b'9' => Some(byte - b'0'),
        b'a'..=b'f' => Some(byte - b'a' + 10),
        _ => None,
    }
}

/// The address whose text the value is.
pub(crate) fn mac_in(value: &Value) -> Option<Mac>
    ensures found { IfSome result (λ m. IsMac (view value.now) m) }
    ensures none { IfNone result ((m : Hardware) → ¬ IsMac (view value.now) m) }
{
    match value.as_str() {
        Some(text) => mac_of(text.as_bytes()),
        None => None,
    }
}

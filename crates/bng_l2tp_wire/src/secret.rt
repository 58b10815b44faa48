//! The secret that a gateway and its peer share, for Challenges and hidden AVPs (RFC 2661 sections 4.3 and 5.1.1).
ghost use Rattle.std.specs.Prelude.{◌≡◌};
ghost use Rattle.bng_l2tp_wire.specs.View.{octets_of};

use arrayvec::ArrayVec;

/// The same text once more.
pub fn copied(text: &ArrayVec<u8, 64>) -> ArrayVec<u8, 64>
    ensures { result.items ≡ text.now.items }
{
    let Ok(list) = ArrayVec::try_from(text.as_slice()) else {
        unreachable!();
    };
    list
}

/// The same secret once more.
pub fn copied_secret(secret: &Option<ArrayVec<u8, 64>>) -> Option<ArrayVec<u8, 64>>
    ensures { octets_of result ≡ octets_of secret.now }
{
    match secret {
        Some(secret) => Some(copied(secret)),
        None => None,
    }
}

ghost use Rattle.std.specs.Prelude.{◌≡◌, ◌≤◌, ◌%◌, ◌++◌, length};
ghost use Rattle.byteorder.specs.Endian.{big_bytes};
ghost use Rattle.md5.specs.Md5.{md5};
ghost use Rattle.bng_digest.specs.Mixing.{IsHidden};
ghost use Rattle.bng_digest.specs.Hiding.{hidden_password, revealed_avp};

use crate::mixing::{hide, reveal};
use crate::texts::md5_of;

/// Hides a User-Password in place (RFC 2865 section 5.2). The block is the password, padded with zeros to a multiple
/// of 16 octets, 128 at most.
pub fn hide_password(secret: &[u8], authenticator: &[u8; 16], block: &mut [u8])
    requires padded { length block.old % 16 ≡ 0 }
    requires at_least { 16 ≤ length block.old }
    requires at_most { length block.old ≤ 128 }
    ensures value { block.new ≡ hidden_password secret.now authenticator.now block.old }
    ensures chained { IsHidden secret.now (md5 (secret.now ++ authenticator.now)) block.old block.new }
{
    let first = md5_of(&[secret, authenticator]);
    hide(secret, &first, block);
}

/// Reveals in place what the value of a hidden AVP stands for (RFC 2661 section 4.3): its length in two octets, the
/// octets themselves, and padding. `kind` is the AVP's Attribute Type, and `vector` the value of the last
/// Random Vector before it.
pub fn unhide_avp(kind: u16, secret: &[u8], vector: &[u8], value: &mut [u8])
    ensures value { value.new ≡ revealed_avp kind secret.now vector.now value.old }
    ensures chained { IsHidden secret.now (md5 (big_bytes 2 kind ++ secret.now ++ vector.now)) value.new value.old }
{
    let first = md5_of(&[&kind.to_be_bytes(), secret, vector]);
    reveal(secret, &first, value);
}

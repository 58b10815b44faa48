ghost use Rattle.std.specs.Prelude.{◌≡◌, ◌≤◌, ◌-◌, ◌∷◌, ◌++◌, length, map, drop, replicate};
ghost use Rattle.std.specs.List.{concat};
ghost use Rattle.md5.specs.Md5.{md5};
ghost use Rattle.bng_digest.specs.Authentication.{keyed_block, hmac_md5};

use crate::texts::{md5_behind, md5_of};

// The block length of MD5 in octets, B of RFC 2104 section 2.
const BLOCK: usize = 64;
// The octet that ipad repeats.
const INNER: u8 = 0x36;
// The octet that opad repeats.
const OUTER: u8 = 0x5c;

/// HMAC-MD5 (RFC 2104 section 2) of a text, under a key of at most 64 octets.
pub fn hmac_md5(key: &[u8], text: &[u8]) -> [u8; 16]
    requires { length key.now ≤ 64 }
    ensures { result ≡ hmac_md5 key.now text.now }
{
    hmac_md5_of(key, &[text])
}

/// HMAC-MD5 (RFC 2104 section 2) of texts one after the other, under a key of at most 64 octets.
pub fn hmac_md5_of(key: &[u8], texts: &[&[u8]]) -> [u8; 16]
    requires { length key.now ≤ 64 }
    ensures { result ≡ hmac_md5 key.now (concat (map (λ text. text.now) texts.now)) }
{
    let inner = md5_behind(&keyed_block(key, INNER), texts);
    md5_behind(&keyed_block(key, OUTER), &[&inner])
}

// The key, with zeros appended to the length of a block.
fn zero_padded(key: &[u8]) -> [u8; 64]
    requires { length key.now ≤ BLOCK }
    ensures { result ≡ key.now ++ replicate (BLOCK - length key.now) 0 }
{
    let mut block = [0; 64];
    copy_to_front(&mut block, key);
    block
}

fn copy_to_front(block: &mut [u8], key: &[u8])
    requires { length key.now ≤ length block.old }
    ensures { block.new ≡ key.now ++ drop (length key.now) block.old }
{
    block[..key.len()].copy_from_slice(key);
}

// The padded key, each octet xored with that of a pad.
fn keyed_block(key: &[u8], pad: u8) -> [u8; 64]
    requires { length key.now ≤ BLOCK }
    ensures { result ≡ keyed_block key.now pad }
{
    let mut block = zero_padded(key);
    for i in 0..BLOCK {
        block[i] ^= pad;
    }
    block
}

/// The value of a CHAP Response (RFC 1994 section 4.1): the MD5 digest of the Identifier, the secret
/// and the Challenge.
pub fn chap_value(id: u8, secret: &[u8], challenge: &[u8]) -> [u8; 16]
    ensures { result ≡ md5 (id ∷ secret.now ++ challenge.now) }
{
    md5_of(&[&[id], secret, challenge])
}
